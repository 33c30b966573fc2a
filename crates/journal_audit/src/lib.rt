//! Checks the text of a run's journal, by the scheduling core itself.
#![tactic(auto)]

mod asked;
mod opens;
mod own;
mod texts;

ghost use Rattle.std.specs.Prelude.{◌≡◌, IfOk};
ghost use Rattle.exec_journal.specs.Legal.{Legal};
ghost use Rattle.outside.specs.Causes.{Counts};
ghost use Rattle.journal_replay.specs.Streams.{Streamed};
ghost use Rattle.journal_replay.specs.Verdicts.{Judges};
ghost use Rattle.journal_replay.specs.declared.verdict.Verdict.{Verdict};

pub use asked::Asked;
pub use journal_replay::Verdict;
use journal_replay::{audit_with, check_stream_with};
pub use opens::{Opened, Opens};
use outside::{Sink, Tap};
use plain_values::NoMemory;
use spawn_core::EarliestFirst;
use std::alloc::Global;
pub use texts::{audit_again, legal_texts_are_judged};

/// Returns the verdict on the text. Its author isn't trusted: if the answer is Yes, the journal that it
/// spells is legal. The contract allows no other answer.
///
/// # Errors
///
/// Returns `NoMemory` if memory runs out, which means nothing about the text.
pub fn audit(alloc: Global, bytes: &[u8]) -> Result<Verdict, NoMemory>
    ensures answer { IfOk result (Judges Legal bytes.now) }
    ensures only { IfOk result (λ v. (w : Verdict) → Judges Legal bytes.now w → w ≡ v) }
{
    audit_with::<Asked<EarliestFirst>>(alloc, bytes)
}

/// Reads an input to its end, or until it is too long, and writes a line with the verdict. If it begins with a report, the
/// verdict is that of the text behind it, and otherwise that of all of it. The status is 0 if the text is legal, 1 if it
/// isn't, and 4 if it is no journal of a sound plan. It is 3 if memory ran out, 5 if the tap failed, and 6 if the sink
/// failed.
pub fn check_stream<T: Tap, O: Sink>(alloc: Global, input: &mut T, out: &mut O) -> u8
    ensures streamed { Streamed Legal (T.told input.old) (T.told input.new)
        (O.told out.old) (O.told out.new) result }
    ensures tap { Counts (T.told input.old).faults (T.told input.new).faults (result ≡ 5) }
    ensures sink { Counts (O.told out.old).faults (O.told out.new).faults (result ≡ 6) }
{
    check_stream_with::<Asked<EarliestFirst>, T, O>(alloc, input, out)
}
