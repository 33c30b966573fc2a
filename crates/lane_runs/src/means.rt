//! The resources of a run's lanes.
use remote_messages::WorkAction;
use run_plan::Speech;
use run_values::Settings;

/// The resources of a run's lanes: speeches, launch settings and work.
#[derive(Clone, Copy, Drop)]
pub struct AllMeans<'a> {
    /// The speech of each berth that has lanes, by the berths' numbers.
    pub speeches: &'a [Speech],
    /// The settings with which the lines of all groups are set up.
    pub settings: &'a Settings<'a>,
    /// The work of all actions, by their numbers.
    pub actions: &'a [WorkAction],
}
