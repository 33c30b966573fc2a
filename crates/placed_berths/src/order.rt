// The order of the berths' last messages: berths that were silent for longer come first.
ghost use Rattle.std.specs.Prelude.{◌≡◌, ◌==◌, ◌≤◌, true, IfOk};
ghost use Rattle.std.specs.List.{list_any};
ghost use Rattle.shared_laws.specs.Spoken.{berths_from, is_before, is_word, moved};

use arrayvec::ArrayVec;
use exec_journal::Call;

/// Returns the list of `berths` berths, none of which has sent a message.
pub fn silent_berths(berths: u32) -> ArrayVec<u32, 64>
    requires { berths ≤ 64 }
    ensures { result.items ≡ berths_from 0 berths }
{
    let mut spoken = ArrayVec::new();
    for berth in 0..berths {
        spoken.push(berth);
    }
    spoken
}

/// Notes that the berth has just sent a message.
pub fn move_to_end(spoken: &mut ArrayVec<u32, 64>, berth: u32)
    ensures { list_any (λ v. v == berth) spoken.old.items ≡ true
        → spoken.new.items ≡ moved berth spoken.old.items }
{
    let before = spoken.len();
    spoken.retain(|other| *other != berth);
    // If it was in the list, there is room now.
    if spoken.len() < before {
        spoken.push(berth);
    }
}

/// Returns true if the call reports a message of a berth's line.
pub fn is_word(call: &Call) -> bool
    ensures { result ≡ is_word call.now }
{
    matches!(call, Call::Launched { .. } | Call::Answer { .. })
}

/// Returns true if the first berth is in the list and the second one isn't before it.
pub fn is_before(first: u32, second: u32, spoken: &[u32]) -> bool
    ensures { result ≡ is_before first second spoken.now }
{
    for berth in spoken {
        if *berth == first {
            return true;
        }
        if *berth == second {
            return false;
        }
    }
    false
}
