//! The orders of a proxy lane.
ghost use Rattle.std.specs.Prelude.{◌≡◌, ◌<◌, false, true, IfOk, IfErr};
ghost use Rattle.seat_desk.specs.Passes.{IsSamePass, mine};
ghost use Rattle.exec_journal.specs.declared.call.Call.TheVariants as call;
ghost use Rattle.proxy_words.specs.declared.halt.ProxyHalt.TheVariants as cause;
ghost use Rattle.core_contract.specs.Laws.{fits_ask};
ghost use Rattle.core_contract.specs.Duties.{Asks, duty_of};
ghost use Rattle.proxy_calls.specs.Calls.{IsProxyOf, MakesNone};
ghost use Rattle.exec_journal.specs.Idle.{is_idle, idle_not_kept};
ghost use Rattle.proxy_calls.specs.Orders.{GivesChild, IsOrdered, HasAsked};

use crate::goods::child_in;
use core_contract::Rules;
use core_machine::{Bench, Good};
use exec_journal::{Attempt, Call, Reply};
use lane_threads::{Caller, Question};
use outside::{Berth, Place};
use proxy_words::ProxyHalt;
use std::sync::Wait;

/// An answer waiting to be gathered, with its line and its attempt.
#[derive(Drop)]
pub struct Answered {
    pub line: u32,
    pub number: i32,
    pub attempt: Attempt,
    pub exit: i32,
    pub refused: bool,
}

/// An order to a lane.
#[derive(Drop)]
pub enum Order<K> {
    /// Start a line for the attempt.
    Launch {
        line: u32,
        attempt: Attempt,
    },
    /// Write a request of the attempt to the line.
    Send {
        line: u32,
        number: i32,
        attempt: Attempt,
    },
    /// Cancel a request.
    Cancel {
        line: u32,
        number: i32,
    },
    /// Look at the result of this answer, and claim it.
    Gather(Answered),
    /// Kill this child, which is the line's.
    Kill {
        line: u32,
        child: K,
    },
}

/// The question for the next order.
#[derive(Drop)]
pub struct NextOrder;

impl<B: Berth, P: Place, C: Rules> Question<Bench<B, P, C>> for NextOrder {
    ghost asks = { λ self. call.Ask };

    ghost idles = { is_idle };

    ghost idle_is_not_kept = { λ e h. idle_not_kept e.reply h };

    fn call(&self) -> Call {
        Call::Ask
    }

    fn is_idle(&self, reply: &Reply) -> bool {
        matches!(reply, Reply::Idle)
    }
}

/// Asks until there is an order, or until the lane is told to stop, which is `None`. While there is
/// neither, the lane waits for its bell.
///
/// # Errors
///
/// Returns the Ask if the desk had no memory for its entry. Then nothing was asked.
pub fn ask<B: Berth, P: Place, C: Rules, R: Wait>(
    rt: &R,
    caller: &mut Caller<'_, Bench<B, P, C>>,
    berth: u32,
) -> Result<Option<Order<B::Child>>, ProxyHalt>
    requires lane { IsProxyOf C.discipline berth caller.old.pass }
    requires asks { duty_of (mine caller.old.pass) ≡ Asks }
    ensures same { IsSamePass caller.old.pass caller.new.pass }
    ensures ordered { IfOk result (λ order. HasAsked C.discipline B.Child.told berth order
        caller.old.pass caller.new.pass) }
    ensures refused { IfErr result (λ by. (by ≡ cause.Refused call.Ask)
        × MakesNone caller.old.pass caller.new.pass) }
{
    match caller.ask(rt, &NextOrder) {
        Ok(answer) => Ok(order_of::<B, P>(answer.0, answer.1)),
        Err(_refused) => Err(ProxyHalt::Refused(Call::Ask)),
    }
}

// Returns the order in a reply, with the good that came out.
fn order_of<B: Berth, P: Place>(
    reply: Reply,
    good: Option<Good<B::Child, B::Tap, P>>,
) -> Option<Order<B::Child>>
    requires fits { fits_ask reply ≡ true }
    requires not_idle { is_idle reply ≡ false }
    requires child { GivesChild B.Child.told reply good }
    ensures { IsOrdered B.Child.told reply result }
{
    match reply {
        Reply::Launch {
            line,
            action,
            branch,
            attempt,
        } => Some(Order::Launch {
            line,
            attempt: Attempt {
                action,
                branch,
                number: attempt,
            },
        }),
        Reply::Send {
            line,
            number,
            action,
            branch,
            attempt,
        } => Some(Order::Send {
            line,
            number,
            attempt: Attempt {
                action,
                branch,
                number: attempt,
            },
        }),
        Reply::Cancel { line, number } => Some(Order::Cancel { line, number }),
        Reply::Gather {
            line,
            number,
            action,
            branch,
            attempt,
            exit,
            refused,
        } => Some(Order::Gather(Answered {
            line,
            number,
            attempt: Attempt {
                action,
                branch,
                number: attempt,
            },
            exit,
            refused,
        })),
        Reply::Kill { line, why: _ } => match child_in(good) {
            Some(child) => Some(Order::Kill { line, child }),
            None => unreachable!(),
        },
        Reply::Stop => None,
        _ => unreachable!(),
    }
}
