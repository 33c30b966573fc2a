// An input that comes through a pipe, and the line with the verdict on it.
ghost use Rattle.std.specs.Prelude.{◌≡◌, ◌≤◌, IfOk, Err, string_bytes};
ghost use Rattle.outside.specs.Causes.{Counts};
ghost use Rattle.journal_replay.specs.Streams.{IsPut, IsRead, StreamedBy};
ghost use Rattle.journal_replay.specs.Words.{verdict_line, verdict_status};
ghost use Rattle.journal_replay.specs.declared.streaming.Broke.TheVariants as broke;

use crate::feeding::Auditor;
use crate::replayed::Replayed;
use crate::verdict::Verdict;
use outside::{Io, PIECE, Sink, Taken, Tap};
use plain_values::NoMemory;
use std::alloc::Global;

const LIMIT: usize = 268_435_456;

// After this many reads of a byte or more the text is too long.
const MOST_READS: usize = LIMIT + 1;

// The reason that the reading ended early.
#[derive(Clone, Copy, Debug, PartialEq, Eq)]
enum Broke {
    NoMemory,
    TapFailed,
}

impl From<NoMemory> for Broke {
    ghost use Rattle.journal_replay.specs.declared.streaming.Broke.TheVariants as broke;

    ghost from_gives = { λ _ e. e ≡ broke.NoMemory };

    fn from(_: NoMemory) -> Broke {
        Broke::NoMemory
    }
}

/// Reads an input to its end, or until it is too long, and writes a line with the verdict. If it begins with a report, the
/// verdict is that of the text behind it, and otherwise that of all of it. Only the unfinished line is kept. The status is
/// 0 if the text is legal, 1 if it isn't, and 4 if it is no journal of a sound plan. It is 3 if memory ran out, 5 if the
/// tap failed, and 6 if the sink failed.
pub fn check_stream_with<C: Replayed, T: Tap, O: Sink>(
    alloc: Global,
    input: &mut T,
    out: &mut O,
) -> u8
    ensures streamed { StreamedBy C.rules (T.told input.old) (T.told input.new)
        (O.told out.old) (O.told out.new) result }
    ensures tap { Counts (T.told input.old).faults (T.told input.new).faults (result ≡ 5) }
    ensures sink { Counts (O.told out.old).faults (O.told out.new).faults (result ≡ 6) }
{
    let verdict = match read_all::<C, T>(alloc, input) {
        Ok(verdict) => verdict,
        Err(Broke::NoMemory) => return 3,
        Err(Broke::TapFailed) => return 5,
    };
    match line_of(alloc, verdict) {
        Ok(line) => put_line(verdict, line.as_str(), out),
        Err(NoMemory) => 3,
    }
}

// Judges all bytes, or more than the limit.
fn read_all<C: Replayed, T: Tap>(alloc: Global, input: &mut T) -> Result<Verdict, Broke>
    ensures read { IfOk result (λ v. IsRead C.rules v (T.told input.old) (T.told input.new)) }
    ensures count { Counts (T.told input.old).faults (T.told input.new).faults
        (result ≡ Err broke.TapFailed) }
{
    let mut auditor: Auditor<C> = Auditor::of_input(alloc);
    let mut piece = [0; PIECE];
    let mut taken = 0;
    for _ in 0..MOST_READS {
        match input.read(&mut piece) {
            Taken::Bytes(count) => {
                taken += count;
                if taken > LIMIT {
                    return Ok(Verdict::TooLong);
                }
                auditor.feed(&piece[..count])?;
            }
            Taken::End => return Ok(auditor.verdict()?),
            Taken::Failed => return Err(Broke::TapFailed),
        }
    }
    Ok(Verdict::TooLong)
}

fn put_line<O: Sink>(verdict: Verdict, line: &str, out: &mut O) -> u8
    requires { line.now ≡ verdict_line verdict }
    ensures told { IsPut verdict (O.told out.old) (O.told out.new) result }
    ensures sink { Counts (O.told out.old).faults (O.told out.new).faults (result ≡ 6) }
{
    match out.put(line.as_bytes()) {
        Io::Done => status_of(verdict),
        Io::Failed => 6,
    }
}

fn status_of(verdict: Verdict) -> u8
    ensures { result ≡ verdict_status verdict }
{
    match verdict {
        Verdict::Yes { .. } => 0,
        Verdict::Illegal { .. } => 1,
        _ => 4,
    }
}

fn line_of(alloc: Global, verdict: Verdict) -> Result<String, NoMemory>
    ensures { IfOk result (λ s. string_bytes s ≡ verdict_line verdict) }
{
    let line = match verdict {
        Verdict::Yes { actions, entries } => {
            format!(in alloc; "legal actions={actions} entries={entries}\n")?
        }
        Verdict::TooLong => String::from_str(alloc, "too long\n")?,
        Verdict::BadLine { line } => format!(in alloc; "bad line={line}\n")?,
        Verdict::BadPlan => String::from_str(alloc, "bad plan\n")?,
        Verdict::OutOfPlan { entry } => format!(in alloc; "out of plan entry={entry}\n")?,
        Verdict::Illegal { entry } => format!(in alloc; "illegal entry={entry}\n")?,
    };
    Ok(line)
}
