ghost use Rattle.std.specs.Prelude.{◌≡◌, ◌+◌, ◌-◌, ◌^◌, min};

use crate::script::is_to_fail;
use crate::{FailAt, Object};

/// The number of calls of one kind.
#[derive(Clone, Copy, PartialEq, Eq)]
pub struct Calls {
    made: u64,
}

impl Calls {
    pub fn new() -> Calls
        ensures { result.made ≡ 0 }
    {
        Calls { made: 0 }
    }

    /// Counts a call, and returns its number, which is 1 for the first.
    pub fn count(&mut self) -> u64
        ensures counted { self.new.made ≡ min (self.old.made + 1) (2 ^ 64 - 1) }
        ensures number { result ≡ self.new.made }
    {
        self.made = self.made.saturating_add(1);
        self.made
    }

    /// Counts a call, and returns true if it must fail.
    pub fn fails_now(&mut self, fails: &[FailAt], on: Object) -> bool {
        let nth = self.count();
        is_to_fail(fails, on, nth)
    }
}
