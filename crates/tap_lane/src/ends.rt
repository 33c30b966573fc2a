//! The results of a tap lane.
use exec_journal::HowEnded;

/// A tap that a lane took, with its line.
#[derive(Drop)]
pub struct EndedTap<T> {
    /// The line.
    pub line: u32,
    /// The tap, as the lane left it.
    pub tap: T,
}

/// The step for which memory ran out when a lane halted. Nothing else makes a lane halt.
#[derive(Clone, Copy, PartialEq, Eq)]
pub enum TapHalt {
    /// Taking a line, between two lines.
    Line,
    /// Reading bytes or an answer of a line that hadn't ended.
    Answers,
    /// Reporting how a line has ended.
    End(HowEnded),
}

/// The result of a lane, in addition to its pass.
#[derive(Drop)]
pub struct TapLeft<T> {
    /// The taps that it took, in the order of their lines.
    pub taps: Vec<EndedTap<T>>,
    /// The reason why the lane halted, unless it was told to stop.
    pub halted: Option<TapHalt>,
}
