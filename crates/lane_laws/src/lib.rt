//! Laws of a run's history, for the lines of its tap lanes, and after its lanes have ended. The
//! functions do nothing: each is a law.
#![tactic(auto)]

ghost use Rattle.lane_laws.specs.Places.{PlacesAreBack};
ghost use Rattle.lane_laws.specs.Taps.{StartedAreTapped, ShelvedAreUntaken};
ghost use Rattle.lane_laws.specs.Lines.{StartedAreApart};
ghost use Rattle.lane_laws.specs.Lanes.{OnlyKnownLanesSpeak, TakenAreTapped, EndedHaveLeft};
ghost use Rattle.lane_laws.specs.Halts.{EndsTellHalts, HaltsAreByLanes};
ghost use Rattle.lane_laws.specs.Pipes.{SaysWhatTapsTell, SilentUnlessGiven};

use core_contract::Rules;

/// If each proxy lane has left, without a halt before a Committed that it owed, or never made an entry, the
/// place of each action is back.
pub fn places_are_back<C: Rules>()
    ensures { PlacesAreBack C.discipline }
{}

/// The lines that a proxy lane started are those that the tap lane of its berth took, in order, and
/// then the line whose tap is still on the shelf.
pub fn started_lines_have_taps<C: Rules>()
    ensures { StartedAreTapped C.discipline }
{}

/// Each started line was started once, and its number is below the number of lines that were ordered.
pub fn started_lines_are_apart<C: Rules>()
    ensures { StartedAreApart C.discipline }
{}

/// The line whose tap is on the shelf was given to no tap lane.
pub fn shelved_taps_are_untaken<C: Rules>()
    ensures { ShelvedAreUntaken C.discipline }
{}

/// Each entry belongs to a lane of the plan.
pub fn only_known_lanes_speak<C: Rules>()
    ensures { OnlyKnownLanesSpeak C.discipline }
{}

/// The lines that a tap lane took are the lines of the taps that it leaves.
pub fn taken_lines_have_taps()
    ensures { TakenAreTapped }
{}

/// A proxy lane that has ended has left. If it halted, it did so when it owed no Committed. If it
/// didn't halt, its last reply is Stop.
pub fn ended_lanes_have_left()
    ensures { EndedHaveLeft }
{}

/// A lane that reports a halt has made a Halt. A tap lane that reports none made none: its last
/// reply is Stop.
pub fn ends_tell_halts()
    ensures { EndsTellHalts }
{}

/// A history has a Halt exactly if a lane with entries in it has made one.
pub fn halts_are_by_lanes()
    ensures { HaltsAreByLanes }
{}

/// Let a lane's entries in a core's history be just what a tap lane leaves. Then the history
/// contains, for each line that the lane took, the answers that the bytes of its tap spell, and how
/// it has ended. Other lanes' entries don't report on these lines, and none of them was taken
/// twice.
pub fn history_says_what_taps_tell<C: Rules>()
    ensures { SaysWhatTapsTell C.discipline }
{}

/// If no tap lane was given a line, so that its tap is still on the shelf, the history has no answer and no
/// end of it.
pub fn lines_not_given_are_silent<C: Rules>()
    ensures { SilentUnlessGiven C.discipline }
{}
