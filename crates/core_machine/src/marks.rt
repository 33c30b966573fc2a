//! Lanes as the bits of a number: bit `k` is lane `k`.
ghost use Rattle.std.specs.Prelude.{◌≡◌, ◌<◌, ◌≤◌, ◌+◌, ℕ, Bool};
ghost use Rattle.core_machine.specs.Marks.{Marks};
ghost use Rattle.core_machine.specs.Waking.{is_stirred};

/// Returns these lanes, which are below `lane`, together with `lane` if it must be marked.
pub(crate) fn mark(lanes: u128, lane: u32, is: bool) -> u128
    requires { lane < 128 }
    ensures { (f : ℕ → Bool) → Marks lanes lane f → f lane ≡ is → Marks result (lane + 1) f }
{
    if is { lanes | (1 << lane) } else { lanes }
}

/// Returns the lanes of a span that are marked now, weren't before, and aren't the caller's. Bit `k`
/// stands for the lane `first + k`.
pub(crate) fn stirred(now: u128, before: u128, first: u32, caller: u32) -> u128
    ensures { (news : ℕ → Bool) (count : ℕ) → count ≤ 128
        → Marks now count (λ k. news (first + k))
        → Marks result count (is_stirred news first before caller) }
{
    let new = now & !before;
    if first <= caller && caller - first < 128 {
        new & !(1 << (caller - first))
    } else {
        new
    }
}
