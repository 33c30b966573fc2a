//! The small programs: `execute` is the executor, and `demo` is the demonstration worker.
#![tactic(auto)]

mod demonstrating;
mod executing;
mod site;

pub use demo_worker::DemoLane;
pub use demonstrating::demo;
pub use executing::execute;
pub use message_service::Finish;
pub use site::{DemoEnd, DemoLeft, DemoSite};
