//! A law about every history of a core. The function does nothing: it is a law.
ghost use Rattle.lane_runs.specs.Laws.{HistoryLaws, LinesFit, StandLegal};

use core_contract::Rules;
use lane_laws::{
    ended_lanes_have_left, ends_tell_halts, halts_are_by_lanes, history_says_what_taps_tell,
    lines_not_given_are_silent, only_known_lanes_speak, places_are_back, shelved_taps_are_untaken,
    started_lines_are_apart, started_lines_have_taps, taken_lines_have_taps,
};

/// Combines the laws about lanes that have ended, and about their taps, for this kind of core.
pub(crate) fn histories_say<C: Rules>()
    ensures laws { HistoryLaws C.discipline }
    ensures stands { StandLegal C.stands C.plan C.discipline }
    ensures fit { LinesFit C.discipline }
{
    places_are_back::<C>();
    started_lines_have_taps::<C>();
    shelved_taps_are_untaken::<C>();
    started_lines_are_apart::<C>();
    only_known_lanes_speak::<C>();
    history_says_what_taps_tell::<C>();
    lines_not_given_are_silent::<C>();
    taken_lines_have_taps();
    ended_lanes_have_left();
    ends_tell_halts();
    halts_are_by_lanes();
}
