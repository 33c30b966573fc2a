//! A set of groups, as callers that ask for an action describe it.
ghost use Rattle.std.specs.Prelude.{◌≡◌, ℕ, Bool};

/// A set of groups, which is queried for one group at a time.
pub trait GroupSet {
    // The groups that are in the set.
    ghost contains: { Self → ℕ → Bool };

    // The set may be queried for the group.
    ghost can_ask: { Self → ℕ → Type 0 };

    /// Returns true if the group is in the set.
    fn contains(&self, group: u32) -> bool
        requires { can_ask self.now group }
        ensures { result ≡ contains self.now group };
}
