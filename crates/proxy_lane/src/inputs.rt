//! The inputs of a request, with their bytes.
ghost use Rattle.core_contract.specs.Discipline.{makers_in};
ghost use Rattle.std.specs.Prelude.{◌≡◌, IfOk};
ghost use Rattle.request_frames.specs.Requests.{IsFrom};
ghost use Rattle.proxy_words.specs.Deeds.{AreInputs, look_at, looks_of};
ghost use Rattle.run_values.specs.Work.{IsMadeBy};
ghost use Rattle.proxy_lane.specs.Sites.{IsDue, StaysHere, WereTold, plan_at};

use crate::hands::is_executor;
use crate::lane::ProxyLane;
use crate::site::Request;
use core_contract::Rules;
use core_machine::Bench;
use outside::{Berth, Place};
use plain_values::{Blob, NoMemory, Text};
use proxy_calls::look_made;
use remote_messages::{NamedFile, Origin};
use run_plan::{Maker, Speech};
use std::alloc::Global;
use std::sync::Wait;

impl<'a, B: Berth, P: Place, C: Rules, R: Wait> ProxyLane<'a, Bench<B, P, C>, B, R> {
    /// Returns the files of a request's inputs, in order. The core supplies the files that other
    /// actions made, and their contents are shared.
    ///
    /// # Errors
    ///
    /// Returns `NoMemory` if memory runs out.
    pub(crate) fn inputs_of(&mut self, request: &Request<'_>) -> Result<Vec<NamedFile>, NoMemory>
        requires { IsDue C.discipline self.old request.now }
        ensures stays { StaysHere self.old self.new }
        ensures hands { self.new.hands ≡ self.old.hands }
        ensures inputs { IfOk result (λ files. AreInputs request.now.work.now.inputs files.items) }
        ensures told { IfOk result (λ files. WereTold C.discipline self.old self.new
            (looks_of request.now.work.now.inputs files.items)) }
    {
        let inputs = request.work.inputs.as_slice();
        let mut files = Vec::with_capacity(self.site.alloc, inputs.len())?;
        for input in inputs {
            let path = Text::copy_of(self.site.alloc, input.path.as_str())?;
            let content = self.content_of(request, &input.origin)?;
            files.push(NamedFile { path, content })?;
        }
        Ok(files)
    }

    // Returns the bytes of one input.
    fn content_of(&mut self, request: &Request<'_>, origin: &Origin) -> Result<Blob, NoMemory>
        requires due { IsDue C.discipline self.old request.now }
        requires made { IsMadeBy (makers_in (plan_at C.discipline self.old)
            request.now.attempt.action) origin.now }
        ensures stays { StaysHere self.old self.new }
        ensures hands { self.new.hands ≡ self.old.hands }
        ensures from { IfOk result (λ bytes. IsFrom origin.now bytes) }
        ensures told { IfOk result (λ bytes. WereTold C.discipline self.old self.new
            (look_at origin.now bytes)) }
    {
        match origin {
            Origin::Source(source) => source.again(),
            Origin::Made {
                action: made,
                output,
            } => {
                let maker = Maker {
                    action: *made,
                    output: *output,
                };
                let (rt, berth) = (self.site.rt, self.site.berth);
                look_made(rt, &mut self.caller, berth, request.attempt, maker)
            }
        }
    }
}

/// Computes the digests of the inputs of a request, unless they are known. If several lanes need a
/// content at once, one computes its digest and the others wait. The executor receives no digests.
///
/// # Errors
///
/// Returns `NoMemory` if memory runs out.
pub(crate) fn know_digests<R: Wait>(
    rt: &R,
    alloc: Global,
    speech: Speech,
    inputs: &[NamedFile],
) -> Result<(), NoMemory> {
    if is_executor(speech) {
        return Ok(());
    }
    for input in inputs {
        input.content.know_digest(rt, alloc)?;
    }
    Ok(())
}
