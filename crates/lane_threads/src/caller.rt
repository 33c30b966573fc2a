//! The caller, with which a lane calls the machine.
ghost use Rattle.std.specs.Prelude.{◌≡◌, ◌<◌, Bool, true, false, IfOk, IfErr, None};
ghost use Rattle.plain_values.specs.declared.entry.Entry.{Entry};
ghost use Rattle.seat_desk.specs.Passes.{IsPassOf, IsSamePass, Suits, IsPaidFor, MakesCall, MakesPaidCall, MakesNoCall, MayMakeThen, MakesCallThen};
ghost use Rattle.lane_bells.specs.Rings.{Rings};
ghost use Rattle.lane_threads.specs.Callers.{AlwaysSuits};

use lane_bells::{Bells, Ringer};
use seat_desk::{Desk, Machine, Pass, Refused, Then};
use std::sync::Wait;

/// A call that a lane makes until the reply is other than "nothing for you now". It is made again
/// each time, since a machine's call may not be copyable.
pub trait Question<M: Machine> {
    // The call.
    ghost asks: { Self → M.Call };

    // The replies that mean "nothing for the lane now".
    ghost idles: { M.Reply → Bool };

    /// Makes the call.
    fn call(&self) -> M::Call
        ensures { result ≡ asks self.now };

    /// Returns true if the reply means "nothing for the lane now".
    fn is_idle(&self, reply: &M::Reply) -> bool
        ensures { result ≡ idles reply.now };

    // Such a reply is not recorded.
    ghost idle_is_not_kept: { (e : Entry M.Call M.Reply) → idles e.reply ≡ true
        → M.keeps e ≡ false };
}

/// The one way in which lanes call: a pass with its desk and the bells of all lanes.
///
/// Each call rings the lanes that its turn stirred, right after the turn and in the same thread. It
/// rings them once, so that no ring is lost. A clause reads the caller's pass and what it has rung.
/// No clause covers waiting.
pub struct Caller<'a, M: Machine> {
    desk: &'a Desk<M>,
    ringer: Ringer<'a>,
    pass: Pass<M>,
    pub ghost at_desk: { pass.seat.table_id ≡ desk.now.table.shared.table_id },
    pub ghost has_bell: { pass.lane < ringer.bells.now },
}

impl<'a, M: Machine> Caller<'a, M> {
    /// Creates a caller with this pass. It waits for the bell of the pass's own lane, and for no
    /// other.
    pub fn new(desk: &'a Desk<M>, bells: &'a Bells, pass: Pass<M>) -> Caller<'a, M>
        requires desk { IsPassOf desk.now pass }
        requires bell { pass.lane < bells.now }
        ensures pass { result.pass ≡ pass }
    {
        Caller {
            desk,
            ringer: Ringer::new(bells),
            pass,
        }
    }

    /// Returns the pass, after the last call.
    pub fn into_pass(self) -> Pass<M>
        ensures { result ≡ self.entry.pass }
    {
        let Caller {
            desk: _,
            ringer: _,
            pass,
        } = self;
        pass
    }

    /// Makes the call. Returns the machine's reply and the good that came out.
    ///
    /// # Errors
    ///
    /// Same as [`Desk::call`]. Then nothing was called.
    pub fn call<R: Wait>(
        &mut self,
        rt: &R,
        call: M::Call,
        put: Option<M::Good>,
    ) -> Result<(M::Reply, Option<M::Good>), Refused<M>>
        requires { Suits self.old.pass call put }
        ensures same { IsSamePass self.old.pass self.new.pass }
        ensures rung { Rings self.old.ringer self.new.pass.stirs self.new.ringer }
        ensures answer { IfOk result (λ r. MakesCall self.old.pass call r.0 r.1 self.new.pass) }
        ensures refused { IfErr result (λ e. (e.call ≡ call) × (e.put ≡ put)
            × MakesNoCall self.old.pass self.new.pass) }
    {
        let answer = self.desk.call(rt, &mut self.pass, call, put);
        self.ringer.ring(self.pass.stirs());
        answer
    }

    /// Makes a call that the pass's history has paid for. The call takes no memory, and its reply
    /// is not short.
    pub fn call_paid<R: Wait>(
        &mut self,
        rt: &R,
        call: M::Call,
        put: Option<M::Good>,
    ) -> (M::Reply, Option<M::Good>)
        requires suits { Suits self.old.pass call put }
        requires paid { IsPaidFor self.old.pass call }
        ensures same { IsSamePass self.old.pass self.new.pass }
        ensures rung { Rings self.old.ringer self.new.pass.stirs self.new.ringer }
        ensures answer { MakesPaidCall self.old.pass call result.0 result.1 self.new.pass }
        ensures not_short { M.short result.0 ≡ false }
    {
        let answer = self.desk.call_paid(rt, &mut self.pass, call, put);
        self.ringer.ring(self.pass.stirs());
        answer
    }

    /// Makes the call. If `work` returns a second call for its reply, makes that call too, in the
    /// same turn. Returns the same as [`Desk::call_then`].
    ///
    /// # Errors
    ///
    /// Same as [`Desk::call_then`]. The work is unchanged.
    pub fn call_then<W: Then<M>, R: Wait>(
        &mut self,
        rt: &R,
        call: M::Call,
        work: &mut W,
    ) -> Result<(M::Reply, Option<M::Good>), Refused<M>>
        requires suits { Suits self.old.pass call None }
        requires may { MayMakeThen W.meets self.old.pass call work.old }
        ensures same { IsSamePass self.old.pass self.new.pass }
        ensures rung { Rings self.old.ringer self.new.pass.stirs self.new.ringer }
        ensures answer { IfOk result (λ r.
            MakesCallThen W.meets self.old.pass call work.old r.0 r.1 work.new self.new.pass) }
        ensures refused { IfErr result (λ e. (e.call ≡ call) × (e.put ≡ None)
            × (work.new ≡ work.old) × MakesNoCall self.old.pass self.new.pass) }
    {
        let answer = self.desk.call_then(rt, &mut self.pass, call, work);
        self.ringer.ring(self.pass.stirs());
        answer
    }

    /// Makes the question's call again and again until the reply is not idle. Between two calls, it
    /// waits for the lane's bell. For the last call, it states what [`Desk::call`] states, about
    /// the pass before all of the calls, since the earlier ones were not recorded. A good that came
    /// out with an idle reply is dropped.
    ///
    /// # Errors
    ///
    /// Same as [`Desk::call`].
    pub fn ask<Q: Question<M>, R: Wait>(
        &mut self,
        rt: &R,
        question: &Q,
    ) -> Result<(M::Reply, Option<M::Good>), Refused<M>>
        requires { AlwaysSuits self.old.pass (Q.asks question.now) }
        ensures same { IsSamePass self.old.pass self.new.pass }
        ensures rung { self.new.ringer.last ≡ self.new.pass.stirs }
        ensures answer { IfOk result (λ r.
            MakesCall self.old.pass (Q.asks question.now) r.0 r.1 self.new.pass
            × (Q.idles r.0 ≡ false)) }
        ensures refused { IfErr result (λ e. (e.call ≡ Q.asks question.now) × (e.put ≡ None)
            × MakesNoCall self.old.pass self.new.pass) }
    {
        for _ in rt.forever() {
            match self.call(rt, question.call(), None) {
                Ok((reply, good)) => {
                    if !question.is_idle(&reply) {
                        return Ok((reply, good));
                    }
                }
                Err(refused) => return Err(refused),
            }
            self.ringer.rest(rt, self.pass.lane());
        }
        unreachable!()
    }
}
