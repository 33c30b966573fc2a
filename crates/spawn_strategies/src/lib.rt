//! The strategies by which actions run: the choice from each action's list, and the plan that follows.
#![tactic(auto)]

mod choosing;
mod copies;
mod listing;
mod numbers;
mod placing;
mod reading;
mod said;
mod types;

pub use choosing::chosen;
pub use placing::chosen_plan;
pub use reading::{read_given_words, read_spawn_words};
pub use said::other_words;
pub use types::{ChoiceFault, Name, PlanLimits, Rule, SpawnOptions, Strategies};
