//! A proxy lane's work for a Kill and for its Halt.
ghost use Rattle.proxy_calls.specs.declared.asking.Order.TheVariants as order;
ghost use Rattle.proxy_lane.specs.Sites.{IsOrdered, MayGiveUp, GivesUp, Obeys};

use crate::lane::ProxyLane;
use core_contract::Rules;
use core_machine::Bench;
use exec_journal::Call;
use outside::{Berth, Place};
use proxy_calls::{halt, tell};
use proxy_words::ProxyHalt;
use std::sync::Wait;

impl<'a, B: Berth, P: Place, C: Rules, R: Wait> ProxyLane<'a, Bench<B, P, C>, B, R> {
    /// Has the berth end the open line's child, stores the child with the line's feed, and reports
    /// the Kill.
    ///
    /// # Errors
    ///
    /// Returns the reason if the lane must halt.
    pub(crate) fn kill(&mut self, line: u32, child: B::Child) -> Result<(), ProxyHalt>
        requires { IsOrdered C.discipline B.Child.told (order.Kill line child) self.old }
        ensures { Obeys C.discipline result self.old self.new }
    {
        self.hands.lay_by(line, child);
        let report = Call::Killed { line };
        tell(self.site.rt, &mut self.caller, self.site.berth, report)
    }

    /// Halts. If a line is open, takes its child off the shelf, and the berth ends the child.
    pub(crate) fn give_up(&mut self)
        requires { MayGiveUp C.discipline self.old }
        ensures { GivesUp self.old self.new }
    {
        let child = halt(self.site.rt, &mut self.caller, self.site.berth);
        match child {
            Some(child) => match self.hands.open_line() {
                Some(line) => self.hands.lay_by(line, child),
                None => {}
            },
            None => {}
        }
    }
}
