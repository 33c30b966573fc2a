//! Facts about a whole run, read from its journal.
ghost use Rattle.std.specs.Prelude.{◌≡◌, count_by};
ghost use Rattle.std.specs.List.{list_any};
ghost use Rattle.lane_runs.specs.Layout.{orders_line, tells_halt};

use exec_journal::{Call, Entry, Reply};

/// Returns the number of lines that were ordered.
pub(crate) fn lines_ordered(entries: &[Entry]) -> usize
    ensures { result ≡ count_by orders_line entries.now }
{
    let mut count = 0;
    for entry in entries {
        if orders_line(entry) {
            count += 1;
        }
    }
    count
}

fn orders_line(entry: &Entry) -> bool
    ensures { result ≡ orders_line entry.now }
{
    matches!(entry.reply, Reply::Launch { .. })
}

/// Returns true if some lane has halted.
pub(crate) fn has_halt(entries: &[Entry]) -> bool
    ensures { result ≡ list_any tells_halt entries.now }
{
    entries.iter().any(|entry| tells_halt(entry))
}

fn tells_halt(entry: &Entry) -> bool
    ensures { result ≡ tells_halt entry.now }
{
    matches!(entry.call, Call::Halt)
}
