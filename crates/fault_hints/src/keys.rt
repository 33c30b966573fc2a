// The known keys, and the choice of the one that an unknown key probably means.
use std::cmp::{max, min};

/// The keys of an action.
pub const OF_ACTION: [&str; 9] = [
    "name",
    "mnemonic",
    "argv",
    "env",
    "tools",
    "inputs",
    "outputs",
    "requirements",
    "strategy",
];

/// The known requirements.
pub const OF_REQUIREMENTS: [&str; 6] = [
    "supports-workers",
    "supports-multiplex-workers",
    "supports-worker-cancellation",
    "supports-multiplex-sandboxing",
    "requires-worker-protocol",
    "worker-key-mnemonic",
];

/// The strategies.
pub const STRATEGIES: [&str; 3] = ["worker", "remote", "dynamic"];

/// The keys of the whole list.
pub const OF_LIST: [&str; 1] = ["actions"];

// The largest number of a known key's letters that may differ or be left out, at one place.
const MOST_LETTERS: usize = 2;

// The smallest number of letters of a known key that count as its beginning.
const LEAST_LETTERS: usize = 3;

/// Returns true if the key is one of these.
pub fn is_known(key: &str, known: &[&'static str]) -> bool {
    known.iter().any(|one| *one == key)
}

/// Returns the first known key that is like this one: they differ at one place in two letters at most, or one of them
/// begins the other.
pub fn nearest(key: &str, known: &[&'static str]) -> Option<&'static str> {
    for one in known {
        if is_like(key.as_bytes(), one.as_bytes()) {
            return Some(*one);
        }
    }
    None
}

fn is_like(key: &[u8], known: &[u8]) -> bool {
    let shorter = min(key.len(), known.len());
    let before = alike_at_front(key, known);
    let behind = min(alike_at_end(key, known), shorter.saturating_sub(before));
    let differ = max(key.len(), known.len())
        .saturating_sub(before)
        .saturating_sub(behind);
    let has_slip = differ <= MOST_LETTERS && differ < shorter;
    has_slip || (before == shorter && LEAST_LETTERS <= shorter)
}

fn alike_at_front(key: &[u8], known: &[u8]) -> usize {
    let mut alike = 0;
    for (a, b) in key.iter().zip(known.iter()) {
        if *a != *b {
            return alike;
        }
        alike = usize::saturating_add(alike, 1);
    }
    alike
}

fn alike_at_end(key: &[u8], known: &[u8]) -> usize {
    let mut alike = 0;
    for (a, b) in key.iter().rev().zip(known.iter().rev()) {
        if *a != *b {
            return alike;
        }
        alike = usize::saturating_add(alike, 1);
    }
    alike
}
