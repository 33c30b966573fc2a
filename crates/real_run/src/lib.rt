//! The top calls over the real objects, which record their calls. Their contracts give the promises of a program's run
//! as equations.
//!
//! Each call does the same as the generic one, and adds clauses. All objects of the run record what they were asked and
//! gave, with nothing left out. Each of these clauses rests on two facts. The real objects record what they were asked,
//! which is proved for each call in `outside_real`. The system does what its calls are named for.
#![tactic(auto)]

mod build;
mod telling;

pub use build::{run_told, run_told_watched};
pub use telling::Telling;
