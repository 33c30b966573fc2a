ghost use Rattle.std.specs.Prelude.{◌≡◌, ◌<◌, ◌^◌, length};
ghost use Rattle.output_commit.specs.Commits.{Commits};

use outside::{Io, Place};
use plain_values::{Blob, Text};

/// How the writes ended.
#[derive(Clone, Copy, PartialEq, Eq)]
pub enum Committed {
    Done,
    /// This many files were written before a write failed.
    PlaceFault { written: u32 },
}

/// Writes an action's outputs to its place, in order, up to the first write that fails. There is one file for each
/// output, and fewer than 2^32 of them. It takes no memory.
pub fn commit<P: Place>(place: &mut P, outputs: &[Text], files: &[Blob]) -> Committed
    requires files { length files.now ≡ length outputs.now }
    requires few { length outputs.now < 2 ^ 32 }
    ensures { Commits outputs.now files.now result (P.told place.old) (P.told place.new) }
{
    for (index, output) in outputs.iter().enumerate() {
        if let Io::Failed = place.write(output.as_str(), files[index].bytes()) {
            return Committed::PlaceFault {
                written: index as u32,
            };
        }
    }
    Committed::Done
}
