//! The calls of a tap lane, one by one.
ghost use Rattle.std.specs.Prelude.{◌≡◌, ◌≢◌, ◌++◌, ◌∷◌, [], IfOk, OnOk, OnErr};
ghost use Rattle.seat_desk.specs.History.{entry};
ghost use Rattle.exec_journal.specs.declared.call.Call.TheVariants as call;
ghost use Rattle.exec_journal.specs.declared.reply.Reply.TheVariants as reply;
ghost use Rattle.core_contract.specs.Moves.{Past};
ghost use Rattle.core_contract.specs.Laws.{hearing_of, Free, Hears, Over};
ghost use Rattle.core_machine.specs.Bench.{IsTapOf};
ghost use Rattle.tap_lane.specs.Heard.{IsAnswer};
ghost use Rattle.exec_journal.specs.Idle.{is_idle, idle_not_kept};
ghost use Rattle.tap_lane.specs.Taking.{HasTaken, tap_good};
ghost use Rattle.tap_lane.specs.Working.{IsOfBerth, IsAt, IsSameLane, own, number};

use crate::lane::TapLane;
use core_contract::Rules;
use core_machine::{Bench, Good};
use exec_journal::{Answer, Call, HowEnded, Reply};
use lane_threads::Question;
use outside::{Berth, Place};
use plain_values::NoMemory;
use std::sync::Wait;

/// The reply to a Take.
#[derive(Drop)]
pub(crate) enum Took<T> {
    /// This line, with its tap.
    Line(u32, T),
    Stop,
}

// The question for the next line, asked until there is one or the lane must stop.
struct NextLine;

impl<B: Berth, P: Place, C: Rules> Question<Bench<B, P, C>> for NextLine {
    ghost asks = { λ self. call.Take };

    ghost idles = { is_idle };

    ghost idle_is_not_kept = { λ e idle. idle_not_kept e.reply idle };

    fn call(&self) -> Call {
        Call::Take
    }

    fn is_idle(&self, reply: &Reply) -> bool {
        matches!(reply, Reply::Idle)
    }
}

impl<'a, B: Berth, P: Place, C: Rules> TapLane<'a, Bench<B, P, C>> {
    /// Takes the next line.
    ///
    /// # Errors
    ///
    /// Returns `NoMemory` if memory runs out. Then no line was taken.
    pub(crate) fn take<R: Wait>(&mut self, rt: &R) -> Result<Took<B::Tap>, NoMemory>
        requires { IsAt C.discipline Free self.old }
        ensures same { IsSameLane self.old self.new }
        ensures ok { IfOk result (λ took. HasTaken (IsTapOf B.Tap.told) (number self.old)
            (own self.old) took (own self.new)) }
        ensures err { OnErr result (own self.new ≡ own self.old) }
    {
        match self.caller.ask(rt, &NextLine) {
            Ok((reply, good)) => match reply {
                Reply::Line { line } => match tap_in(good) {
                    Some(tap) => Ok(Took::Line(line, tap)),
                    None => unreachable!(),
                },
                Reply::Stop => Ok(Took::Stop),
                _ => unreachable!(),
            },
            Err(_) => Err(NoMemory),
        }
    }

    /// Reports an answer of the line.
    ///
    /// # Errors
    ///
    /// Returns `NoMemory` if memory runs out. Then nothing was reported.
    pub(crate) fn tell_answer<R: Wait>(
        &mut self,
        rt: &R,
        line: u32,
        answer: Answer,
    ) -> Result<(), NoMemory>
        requires { IsAt C.discipline (Hears line) self.old }
        ensures same { IsSameLane self.old self.new }
        ensures ok { OnOk result ((e : Past) × IsAnswer line answer e
            × (own self.new ≡ own self.old ++ e ∷ []) × (hearing_of (own self.new) ≡ Hears line)) }
        ensures err { OnErr result (own self.new ≡ own self.old) }
    {
        match self.caller.call(rt, Call::Answer { line, answer }, None) {
            Ok(_) => Ok(()),
            Err(_) => Err(NoMemory),
        }
    }

    /// Reports how the line has ended.
    ///
    /// # Errors
    ///
    /// Returns `NoMemory` if memory runs out. Then nothing was reported.
    pub(crate) fn tell_end<R: Wait>(
        &mut self,
        rt: &R,
        line: u32,
        how: HowEnded,
    ) -> Result<(), NoMemory>
        requires { IsAt C.discipline (Hears line) self.old }
        ensures same { IsSameLane self.old self.new }
        ensures ok { OnOk result ((own self.new ≡ own self.old
            ++ entry (number self.old) (call.Ended line how) reply.Noted ∷ [])
            × (hearing_of (own self.new) ≡ Free)) }
        ensures err { OnErr result (own self.new ≡ own self.old) }
    {
        match self.caller.call(rt, Call::Ended { line, how }, None) {
            Ok(_) => Ok(()),
            Err(_) => Err(NoMemory),
        }
    }

    /// Halts. The call takes no memory.
    pub(crate) fn halt<R: Wait>(&mut self, rt: &R)
        requires lane { IsOfBerth C.discipline self.old }
        requires goes_on { hearing_of (own self.old) ≢ Over }
        ensures same { IsSameLane self.old self.new }
        ensures halted { own self.new ≡ own self.old
            ++ entry (number self.old) call.Halt reply.Noted ∷ [] }
    {
        self.caller.call_paid(rt, Call::Halt, None);
    }
}

fn tap_in<K: Drop, T: Drop, P: Drop>(good: Option<Good<K, T, P>>) -> Option<T>
    ensures { result ≡ tap_good good }
{
    match good {
        Some(Good::Line(_child, _tap)) => None,
        Some(Good::Child(_child)) => None,
        Some(Good::Tap(tap)) => Some(tap),
        Some(Good::Place(_place)) => None,
        None => None,
    }
}
