//! The work for a Send and for a Cancel.
ghost use Rattle.seat_desk.specs.Passes.{mine};
ghost use Rattle.proxy_calls.specs.declared.asking.Order.TheVariants as order;
ghost use Rattle.proxy_laws.specs.Acts.{Writes, CancelActs};
ghost use Rattle.proxy_laws.specs.Steps.{OwesWrote};
ghost use Rattle.request_frames.specs.declared.frames.Due.TheVariants.{Frame};
ghost use Rattle.run_values.specs.Settings.{HasGroup};
ghost use Rattle.proxy_lane.specs.Held.{ByOpenLine, IsOpen};
ghost use Rattle.proxy_lane.specs.Sites.{IsSite, IsDue, IsOrdered, StaysHere, SendsAt, ReportsWrote, Obeys};
ghost use Rattle.proxy_lane.specs.Writing.{CancelsBy, asks_in, asks_of, due_of};

use crate::hands::{Hands, action_at, is_executor};
use crate::inputs::know_digests;
use crate::lane::ProxyLane;
use crate::site::{Request, Site};
use berth_acts::{RoomFiles, give, send_line};
use core_contract::Rules;
use core_machine::Bench;
use exec_journal::{Attempt, Call, Written};
use outside::{Berth, Feed, Place};
use plain_values::NoMemory;
use proxy_calls::tell;
use proxy_laws::OpenFeed;
use proxy_words::ProxyHalt;
use request_frames::{Due, DueWork, cancel_frame, room_of, send_frame};
use sandbox_rooms::Room;
use std::sync::Wait;

impl<'a, B: Berth, P: Place, C: Rules, R: Wait> ProxyLane<'a, Bench<B, P, C>, B, R> {
    /// Carries out a Send on the open line, and reports the outcome.
    ///
    /// # Errors
    ///
    /// Returns the reason if the lane must halt.
    pub(crate) fn send(&mut self, line: u32, number: i32, attempt: Attempt) -> Result<(), ProxyHalt>
        requires { IsOrdered C.discipline B.Child.told (order.Send line number attempt) self.old }
        ensures { Obeys C.discipline result self.old self.new }
    {
        let work = action_at(self.site.actions, attempt.action);
        let request = Request {
            line,
            number,
            attempt,
            work,
        };
        let wrote = self.act_send(&request);
        self.report(line, number, wrote)
    }

    // Carries out a Send: collects the inputs, prepares the room, and writes the request to the open
    // line. To the executor it writes the job, which has its own room. If the function returns
    // `NoMemory`, nothing was written.
    fn act_send(&mut self, request: &Request<'_>) -> Result<Written, NoMemory>
        requires due { IsDue C.discipline self.old request.now }
        requires opened { IsOpen self.old.hands }
        ensures stays { StaysHere self.old self.new }
        ensures acts { SendsAt C.discipline self.old self.new request.now result }
    {
        let inputs = self.inputs_of(request)?;
        let work = DueWork {
            number: request.number,
            action: request.work,
            inputs: inputs.as_slice(),
        };
        self.hands.send(&self.site, request.attempt, &work)
    }

    /// Carries out a Cancel on the open line, and reports the outcome.
    ///
    /// # Errors
    ///
    /// Returns the reason if the lane must halt.
    pub(crate) fn cancel(&mut self, line: u32, number: i32) -> Result<(), ProxyHalt>
        requires { IsOrdered C.discipline B.Child.told (order.Cancel line number) self.old }
        ensures { Obeys C.discipline result self.old self.new }
    {
        let wrote = self.hands.cancel(&self.site, number);
        self.report(line, number, wrote)
    }

    // Reports what was written, unless memory ran out before the write.
    fn report(
        &mut self,
        line: u32,
        number: i32,
        wrote: Result<Written, NoMemory>,
    ) -> Result<(), ProxyHalt>
        requires site { IsSite C.discipline self.old.site self.old.caller.pass }
        requires owes { OwesWrote line number wrote (mine self.old.caller.pass) }
        ensures { ReportsWrote result self.old self.new line number wrote }
    {
        match wrote {
            Ok(how) => {
                let report = Call::Wrote { line, number, how };
                tell(self.site.rt, &mut self.caller, self.site.berth, report)
            }
            Err(_) => Err(ProxyHalt::NoMemory),
        }
    }
}

impl<B: Berth> Hands<B> {
    // Prepares the room and writes the request to the open line. If the function returns `NoMemory`,
    // nothing was written.
    fn send<R: Wait>(
        &mut self,
        site: &Site<'_, R>,
        attempt: Attempt,
        work: &DueWork<'_>,
    ) -> Result<Written, NoMemory>
        requires opened { IsOpen self.old }
        requires group { HasGroup site.now.settings.now attempt }
        ensures { ByOpenLine (Writes (asks_of site.now attempt work.now)
            (due_of site.now attempt work.now) result) self.old self.new }
    {
        match self.open.take() {
            Some(open) => {
                let OpenFeed { line, mut feed } = open;
                let wrote = write(site, &mut self.berth, &mut feed, attempt, work);
                self.open = Some(OpenFeed { line, feed });
                wrote
            }
            None => unreachable!(),
        }
    }

    // Writes the cancellation of the request to the open line. If the function returns `NoMemory`,
    // nothing was written.
    fn cancel<R>(&mut self, site: &Site<'_, R>, number: i32) -> Result<Written, NoMemory>
        requires { IsOpen self.old }
        ensures { ByOpenLine (CancelsBy site.now.speech number result) self.old self.new }
    {
        match self.open.take() {
            Some(open) => {
                let OpenFeed { line, mut feed } = open;
                let wrote = act_cancel(site, &mut feed, number);
                self.open = Some(OpenFeed { line, feed });
                wrote
            }
            None => unreachable!(),
        }
    }
}

// Prepares the room and writes the frame, unless the frame is too large.
fn write<B: Berth, R: Wait>(
    site: &Site<'_, R>,
    berth: &mut B,
    feed: &mut B::Feed,
    attempt: Attempt,
    work: &DueWork<'_>,
) -> Result<Written, NoMemory>
    requires group { HasGroup site.now.settings.now attempt }
    ensures { Writes (asks_of site.now attempt work.now) (due_of site.now attempt work.now) result
        (B.told berth.old) (B.told berth.new) (B.Feed.told feed.old) (B.Feed.told feed.new) }
{
    know_digests(site.rt, site.alloc, site.speech, work.inputs)?;
    let room = room_of(site.settings.kind_of(attempt), work.number);
    match send_frame(site.alloc, site.speech, room, work, site.settings.verbose)? {
        Due::TooLarge => Ok(Written::TooLarge),
        Due::Frame(frame) => {
            let bytes = frame.as_slice();
            write_frame(site, berth, feed, room, work, bytes)
        }
    }
}

// Prepares the room, unless the line is an executor's, and writes the frame.
fn write_frame<B: Berth, R>(
    site: &Site<'_, R>,
    berth: &mut B,
    feed: &mut B::Feed,
    room: Room,
    work: &DueWork<'_>,
    frame: &[u8],
) -> Result<Written, NoMemory>
    ensures { Writes (asks_in site.now.speech room work.now) (Frame frame.now) result
        (B.told berth.old) (B.told berth.new) (B.Feed.told feed.old) (B.Feed.told feed.new) }
{
    if is_executor(site.speech) {
        return Ok(give(feed, frame));
    }
    let outputs = work.action.outputs.as_slice();
    let files = RoomFiles {
        room,
        inputs: work.inputs,
        outputs,
    };
    send_line(site.alloc, berth, feed, &files, frame)
}

// Writes the cancellation of the request to the line. If the function returns `NoMemory`, nothing was
// written.
fn act_cancel<D: Feed, R>(
    site: &Site<'_, R>,
    feed: &mut D,
    number: i32,
) -> Result<Written, NoMemory>
    ensures { CancelActs site.now.speech number result (D.told feed.old) (D.told feed.new) }
{
    let frame = cancel_frame(site.alloc, site.speech, number)?;
    Ok(give(feed, frame.as_slice()))
}
