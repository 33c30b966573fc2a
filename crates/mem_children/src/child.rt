ghost use Rattle.std.specs.Prelude.{◌≡◌, Some};
ghost use Rattle.outside.specs.Lists.{OnceMore};

use crate::line::Line;
use outside::Child;
use std::sync::{Arc, Wait};

/// A child. It records how often it has been killed.
#[derive(Drop)]
pub struct MemChild<R> {
    rt: R,
    shared: Arc<Line>,
    line: u32,
    /// `None` once it was killed more often than a `u64` can count.
    kills: Option<u64>,
}

impl<R> MemChild<R> {
    /// Returns the child of this line.
    pub fn new(rt: R, shared: Arc<Line>, line: u32) -> MemChild<R>
        ensures line { result.line ≡ line }
        ensures killed { result.kills ≡ Some 0 }
    {
        MemChild {
            rt,
            shared,
            line,
            kills: Some(0),
        }
    }

    /// Returns true if it has been killed.
    pub fn is_killed(&self) -> bool {
        !matches!(self.kills, Some(0))
    }
}

// Returns the next number, or `None` if there is no such number.
fn more(kills: Option<u64>) -> Option<u64>
    ensures { OnceMore kills result }
{
    match kills {
        Some(count) if count < u64::MAX => Some(count + 1),
        _ => None,
    }
}

impl<R: Wait + Drop> Child for MemChild<R> {
    ghost told = { λ c. record { line = Some c.line; kills = c.kills } };

    fn kill(&mut self) {
        self.kills = more(self.kills);
        self.shared.kill(&self.rt);
    }
}
