// The line at the front of some bytes.
ghost use Rattle.std.specs.Prelude.{◌≡◌, ◌+◌, ◌-◌, ◌≤◌, length, drop, take};
ghost use Rattle.json_framing.specs.Lines.{IsLineAt, is_blank, line_length};

use byte_pieces::Pieces;
use memchr::memchr;

/// The place of the line at the front, after any blank lines.
#[derive(Clone, Copy)]
pub(crate) enum Found {
    Whole { start: usize, end: usize },
    Unfinished { start: usize },
    TooLong { start: usize, length: u64 },
}

/// Finds the first line that isn't blank. The first `looked` bytes hold no line feed.
#[tactic(auto, unfolding(crate::specs::Lines::line_at))]
pub(crate) fn find_line(held: &Pieces, looked: usize, limit: u64) -> Found
    requires { looked ≤ line_length held.now }
    ensures { IsLineAt limit held.now result }
{
    let mut start = 0;
    let mut end = line_end(held, looked);
    while end < held.len() && (end - start) as u64 <= limit && is_blank(held, start, end) {
        start = end + 1;
        end = line_end(held, start);
    }
    if (end - start) as u64 > limit {
        return Found::TooLong {
            start,
            length: limit + 1,
        };
    }
    if end == held.len() {
        return Found::Unfinished { start };
    }
    Found::Whole { start, end }
}

// Returns the place of the first line feed from here on, or the end.
fn line_end(held: &Pieces, from: usize) -> usize
    requires { from ≤ length held.now }
    ensures place { result ≡ from + line_length (drop from held.now) }
    ensures within { result ≤ length held.now }
{
    let mut at = from;
    while at < held.len() {
        let part = held.part(at);
        match memchr(b'\n', part) {
            None => at += part.len(),
            Some(behind) => return at + behind,
        }
    }
    at
}

// Returns true if only spaces, tabs and carriage returns are between these places.
fn is_blank(held: &Pieces, start: usize, end: usize) -> bool
    requires { (start ≤ end) × (end ≤ length held.now) }
    ensures { result ≡ is_blank (take (end - start) (drop start held.now)) }
{
    let mut at = start;
    while at < end {
        let part = held.part(at);
        let part = &part[..part.len().min(end - at)];
        if !is_blank_part(part) {
            return false;
        }
        at += part.len();
    }
    true
}

fn is_blank_part(part: &[u8]) -> bool
    ensures { result ≡ is_blank part.now }
{
    for byte in part {
        if !matches!(*byte, b' ' | b'\t' | b'\r') {
            return false;
        }
    }
    true
}
