//! The values that a run is given besides its plan: the settings for its lines (worker processes),
//! and the work of its actions. Definitions state what a plan asks of both, and of its own berths.
//!
//! Readers of lists promise what the definitions state, and lanes ask for it. So neither depends on
//! the other.
#![tactic(auto)]

mod settings;

pub use settings::Settings;
