//! A proxy lane's work for a Gather.
ghost use Rattle.std.specs.Prelude.{◌≡◌, ◌<◌, ◌^◌, IfOk, OnErr, length};
ghost use Rattle.sandbox_rooms.specs.Rooms.{gathering};
ghost use Rattle.berth_acts.specs.Acts.{ReportsLooks, FoundFits};
ghost use Rattle.proxy_calls.specs.declared.asking.Order.TheVariants as order;
ghost use Rattle.proxy_laws.specs.Steps.{OwesClaim, files_in, HasFiles};
ghost use Rattle.proxy_lane.specs.Held.{with_berth};
ghost use Rattle.proxy_lane.specs.Sites.{IsOrdered, IsToGather, IsGood, MayClaim, StaysHere, HasAnswered, GathersAt, Claims, Obeys};

use crate::hands::{Hands, action_at, is_executor};
use crate::lane::ProxyLane;
use berth_acts::gather_line;
use core_contract::Rules;
use core_machine::Bench;
use exec_journal::{Attempt, Found, Wanted};
use outside::{Berth, Place};
use plain_values::{Blob, Items, NoMemory, Text};
use proxy_calls::{Answered, Grant, claim, commit_files, look};
use proxy_words::ProxyHalt;
use remote_messages::WorkAction;
use request_frames::room_of;
use sandbox_rooms::Room;
use std::alloc::Global;
use std::sync::Wait;

impl<'a, B: Berth, P: Place, C: Rules, R: Wait> ProxyLane<'a, Bench<B, P, C>, B, R> {
    /// Finds the result of an answer, and claims it. Writes the granted files to the action's place.
    ///
    /// # Errors
    ///
    /// Returns the reason if the lane must halt.
    pub(crate) fn gather(&mut self, answer: &Answered) -> Result<(), ProxyHalt>
        requires { IsOrdered C.discipline B.Child.told (order.Gather answer.now) self.old }
        ensures { Obeys C.discipline result self.old self.new }
    {
        let work = action_at(self.site.actions, answer.attempt.action);
        match self.act_gather(work, answer) {
            Ok(found) => self.claim_found(work, answer.attempt, found),
            Err(_) => Err(ProxyHalt::NoMemory),
        }
    }

    // Returns what was found for the answer. The outputs are looked at if the exit code is 0 and the
    // answer wasn't refused. They are in the room or, for an executor's answer, among its files. If
    // the function returns `NoMemory`, no look has failed.
    fn act_gather(&mut self, work: &WorkAction, answer: &Answered) -> Result<Found, NoMemory>
        requires { IsToGather C.discipline self.old answer.now work.now }
        ensures stays { StaysHere self.old self.new }
        ensures hands { self.new.hands ≡ with_berth self.new.hands.berth self.old.hands }
        ensures acts { GathersAt C.discipline self.old self.new answer.now work.now result }
        ensures may { IfOk result (λ found. OwesClaim C.discipline self.old.site.berth
            answer.now.attempt found self.new.caller.pass) }
    {
        if answer.exit != 0 {
            return Ok(Found::Exit(answer.exit));
        }
        if answer.refused {
            return Ok(Found::Refused);
        }
        if is_executor(self.site.speech) {
            return self.answered(work, answer);
        }
        let kind = self.site.settings.kind_of(answer.attempt);
        let room = room_of(kind, answer.number);
        self.hands
            .gather(self.site.alloc, room, work.outputs.as_slice())
    }

    // Returns the files of the outputs in an executor's answer, or the first output that the answer
    // lacks.
    fn answered(&mut self, work: &WorkAction, answer: &Answered) -> Result<Found, NoMemory>
        requires gather { IsToGather C.discipline self.old answer.now work.now }
        requires good { IsGood answer.now }
        ensures stays { StaysHere self.old self.new }
        ensures hands { self.new.hands ≡ self.old.hands }
        ensures answered { IfOk result (HasAnswered C.discipline self.old self.new
            answer.now work.now) }
    {
        let outputs = work.outputs.as_slice().len();
        let mut files = Vec::with_capacity(self.site.alloc, outputs)?;
        for output in 0..outputs as u32 {
            let wanted = Wanted::Answered {
                line: answer.line,
                number: answer.number,
                output,
            };
            match look(self.site.rt, &mut self.caller, self.site.berth, wanted)? {
                Some(bytes) => files.push(bytes)?,
                None => return Ok(Found::Missing(output)),
            }
        }
        Ok(Found::Files(Items::of(files)))
    }

    // Claims what was found. The files are shared beforehand, so no lack of memory can occur between
    // a grant and its Committed.
    fn claim_found(
        &mut self,
        work: &WorkAction,
        attempt: Attempt,
        found: Found,
    ) -> Result<(), ProxyHalt>
        requires { MayClaim C.discipline self.old attempt work.now found }
        ensures { Claims result self.old self.new attempt found }
    {
        let Ok(copies) = copies_of(self.site.alloc, &found) else {
            return Err(ProxyHalt::NoMemory);
        };
        let (rt, berth) = (self.site.rt, self.site.berth);
        match claim(rt, &mut self.caller, berth, attempt, found)? {
            Some(place) => {
                let grant = Grant {
                    attempt,
                    files: copies.as_slice(),
                    outputs: work.outputs.as_slice(),
                    place,
                };
                commit_files(rt, &mut self.caller, berth, grant);
                Ok(())
            }
            None => Ok(()),
        }
    }
}

impl<B: Berth> Hands<B> {
    // Looks at the outputs in the room, and clears the request's folder if all are found.
    fn gather(&mut self, alloc: Global, room: Room, outputs: &[Text]) -> Result<Found, NoMemory>
        requires { length outputs.now < 2 ^ 32 }
        ensures hands { self.new ≡ with_berth self.new.berth self.old }
        ensures looks { ReportsLooks (gathering room outputs.now) result
            self.old.berth self.new.berth }
        ensures fits { FoundFits (length outputs.now) result }
    {
        gather_line(alloc, &mut self.berth, room, outputs)
    }
}

// Returns the files that were found, with shared contents.
fn copies_of(alloc: Global, found: &Found) -> Result<Vec<Blob>, NoMemory>
    ensures ok { IfOk result (λ copies. copies.items ≡ files_in found.now) }
    ensures err { OnErr result (HasFiles found.now) }
{
    match found {
        Found::Files(files) => blobs_again(alloc, files.as_slice()),
        Found::Exit(_) | Found::Missing(_) | Found::RoomFault | Found::Refused => {
            Ok(Vec::new(alloc))
        }
    }
}

fn blobs_again(alloc: Global, blobs: &[Blob]) -> Result<Vec<Blob>, NoMemory>
    ensures { IfOk result (λ copies. copies.items ≡ blobs.now) }
{
    let mut copies = Vec::with_capacity(alloc, blobs.len())?;
    for blob in blobs {
        copies.push(blob.again()?)?;
    }
    Ok(copies)
}
