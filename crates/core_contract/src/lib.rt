//! Scheduling cores with any rule: the requirements of the bench and the lanes.
//!
//! A core is known by its rule, a function of its plan and of the history of the recorded calls. Its laws
//! are exactly what lanes need. The contents of the bench's shelf are a function of the history too.
#![tactic(auto)]

mod rules;
mod shift;

pub use rules::Rules;
pub use shift::{Shift, shift_of};
