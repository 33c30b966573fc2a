//! Lanes at one desk, each on its own thread, from the first split to the closed history.
//!
//! A [`Lane`] states what it requires before it runs, and how its pass and its end are related
//! afterwards. [`run_crew`] gives each lane a pass, runs all lanes, joins the passes and closes the
//! desk. It turns what each lane states about its pass into a statement about that lane's entries
//! in the one history. Lanes call through a [`Caller`], which waits while there is nothing for the
//! lane, and rings the lanes that its calls may concern. [`run_crew_beside`] does the same with one
//! extra lane of another kind.
#![tactic(auto)]

mod beside;
mod caller;
mod crew;
mod job;
mod lane;
mod lane_job;
mod pair;
mod parts;

pub use beside::run_crew_beside;
pub use caller::{Caller, Question};
pub use crew::{Crew, Unstarted, run_crew};
pub use job::{Job, Lack, NotBegun, Slot, run_list};
pub use lane::Lane;
pub use pair::Either;
