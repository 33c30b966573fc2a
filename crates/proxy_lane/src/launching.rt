//! A proxy lane's work for a Launch.
ghost use Rattle.proxy_calls.specs.declared.asking.Order.TheVariants as order;
ghost use Rattle.proxy_lane.specs.Sites.{IsOrdered, Obeys};

use crate::lane::ProxyLane;
use berth_acts::{Opened, launch_line};
use core_contract::Rules;
use core_machine::Bench;
use exec_journal::{Attempt, Call, Started};
use outside::{Berth, Place};
use proxy_calls::{Unsaid, tell, tell_started};
use proxy_laws::{EndedFeed, OpenFeed};
use proxy_words::ProxyHalt;
use std::sync::Wait;

impl<'a, B: Berth, P: Place, C: Rules, R: Wait> ProxyLane<'a, Bench<B, P, C>, B, R> {
    /// Starts a line for the attempt, and reports the outcome. Makes room for the line beforehand, so
    /// that none is lost when it ends.
    ///
    /// # Errors
    ///
    /// Returns the reason if the lane must halt. If a child was started by then, it is killed.
    pub(crate) fn launch(&mut self, line: u32, attempt: Attempt) -> Result<(), ProxyHalt>
        requires { IsOrdered C.discipline B.Child.told (order.Launch line attempt) self.old }
        ensures { Obeys C.discipline result self.old self.new }
    {
        if self.hands.ended.reserve(1).is_err() {
            return Err(ProxyHalt::NoMemory);
        }
        let command = self.site.settings.command_of(attempt);
        let opened = match launch_line(&mut self.hands.berth, line, command) {
            Ok(opened) => opened,
            Err(_) => return Err(ProxyHalt::NoMemory),
        };
        let (rt, berth) = (self.site.rt, self.site.berth);
        match opened {
            Opened::Line(feed, tap, child) => {
                match tell_started(rt, &mut self.caller, berth, line, child, tap) {
                    Ok(()) => {
                        self.hands.open = Some(OpenFeed { line, feed });
                        Ok(())
                    }
                    Err(unsaid) => {
                        let Unsaid { mut child } = unsaid;
                        self.hands.berth.end(line, &mut child);
                        self.hands.unsaid = Some(EndedFeed { line, feed, child });
                        let how = Started::Done;
                        Err(ProxyHalt::Refused(Call::Launched { line, how }))
                    }
                }
            }
            Opened::RoomFault => {
                let how = Started::RoomFault;
                tell(rt, &mut self.caller, berth, Call::Launched { line, how })
            }
            Opened::LaunchFault => {
                let how = Started::LaunchFault;
                tell(rt, &mut self.caller, berth, Call::Launched { line, how })
            }
        }
    }
}
