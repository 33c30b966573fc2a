//! The runs on placed berths, over floors that record their calls. Their promises on contents are equations.
#![tactic(auto)]

mod placed_told;
mod shared_told;
mod strategic_told;

pub use placed_told::run_told_placed;
pub use shared_told::run_told_shared;
pub use strategic_told::run_told_strategies;
