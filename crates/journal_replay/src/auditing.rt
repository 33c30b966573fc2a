// The verdict on a text.
ghost use Rattle.std.specs.Prelude.{◌≡◌, ◌≤◌, IfOk, length};
ghost use Rattle.journal_text.specs.Lines.{lines_of};
ghost use Rattle.journal_replay.specs.Knows.{Knows};
ghost use Rattle.journal_replay.specs.Verdicts.{JudgesBy};
ghost use Rattle.journal_replay.specs.declared.verdict.Verdict.{Verdict};

use crate::feeding::Auditor;
use crate::replayed::Replayed;
use crate::verdict::Verdict;
use plain_values::NoMemory;
use std::alloc::Global;

const LIMIT: usize = 268_435_456;

/// Returns the verdict on the text. The author of the text isn't trusted: if the verdict is Yes, the journal that it
/// spells is legal.
///
/// # Errors
///
/// Returns `NoMemory` if memory runs out, which means nothing about the text.
pub fn audit_with<C: Replayed>(alloc: Global, bytes: &[u8]) -> Result<Verdict, NoMemory>
    ensures answer { IfOk result (JudgesBy C.rules bytes.now) }
    ensures only { IfOk result (λ v. (w : Verdict) → JudgesBy C.rules bytes.now w → w ≡ v) }
{
    if bytes.len() > LIMIT {
        return Ok(Verdict::TooLong);
    }
    let mut auditor: Auditor<C> = Auditor::of_text(alloc);
    auditor.feed(bytes)?;
    auditor.verdict()
}
