//! The actions of a list, and the rules between them: for names, outputs, and the inputs that other actions make.
#![tactic(auto)]

mod faults;
mod makers;
mod order;
mod producers;
mod seen;
mod types;

pub use faults::{Key, ListFault, ListRefusal, What};
pub use order::check_order;
pub use producers::Producers;
pub use types::{ActionList, ListAction, Needs, Strategy};
