// The findings about the lines so far, and how the next line changes them.
ghost use Rattle.std.specs.Prelude.{◌≡◌, ◌+◌, ◌<◌, ◌^◌, ◌++◌, ◌∷◌, [], ℕ, List, IfOk, Some, None, true, is_some, length, reverse};
ghost use Rattle.run_plan.specs.Sound.{Sound};
ghost use Rattle.journal_text.specs.Lines.{entry_of};
ghost use Rattle.journal_replay.specs.Knows.{IsBegun, IsLegalSoFar, Knows};
ghost use Rattle.journal_replay.specs.Verdicts.{HasFault, IsBadPlan, Says};

use crate::beyond::{Bounds, bounds_of, is_entry_beyond};
use crate::replayed::{Begun, Replayed};
use crate::same::is_told;
use crate::verdict::Verdict;
use exec_journal::{Entry, Plan};
use journal_reading::{Misread, read_entry};
use plain_values::NoMemory;
use std::alloc::Global;

/// The findings about the lines so far.
#[derive(Drop)]
pub(crate) enum Found<C: Drop> {
    /// There was no line.
    Nothing,
    /// This line was the first that doesn't spell what it should.
    Bad { line: u64 },
    /// The lines spell a basis that isn't sound, and entries.
    Unsound,
    /// The lines spell a sound basis and entries. The entry with this number is the first that the rules don't allow.
    Wrong { entry: u64, beyond: bool },
    /// The lines spell a sound plan and entries, which are legal.
    Going(Going<C>),
}

/// The plan of a sound basis, the number of entries so far, and a core that was called as the entries say.
#[derive(Drop)]
pub(crate) struct Going<C: Drop> {
    core: C,
    plan: Plan,
    bounds: Bounds,
    entries: u64,
}

/// Adds a line to the findings. It has this number, counted from 1.
pub(crate) fn with_line<C: Replayed>(
    alloc: Global,
    found: Found<C>,
    number: u64,
    line: &[u8],
) -> Result<Found<C>, NoMemory>
    ensures { (ls : List (List ℕ)) → Knows C.rules C.stands found ls
        → number ≡ length ls + 1 → length ls < 2 ^ 63
        → IfOk result (λ f. Knows C.rules C.stands f (ls ++ line.now ∷ [])) }
{
    match found {
        Found::Nothing => first_line(alloc, line),
        Found::Bad { line } => Ok(Found::Bad { line }),
        Found::Unsound => unsound_line(alloc, number, line),
        Found::Wrong { entry, beyond } => wrong_line(alloc, entry, beyond, number, line),
        Found::Going(going) => next_line(alloc, going, number, line),
    }
}

/// Begins with the first line of a text.
pub(crate) fn first_line<C: Replayed>(alloc: Global, line: &[u8]) -> Result<Found<C>, NoMemory>
    ensures { IfOk result (λ f. Knows C.rules C.stands f (line.now ∷ [])) }
{
    let start = C::begin(alloc, line)?;
    match start {
        Begun::Misread => Ok(Found::Bad { line: 1 }),
        Begun::Unsound => Ok(Found::Unsound),
        Begun::Going { core, plan, lanes } => Ok(begun(core, plan, lanes)),
    }
}

// Begins the replay of a core that hasn't been called yet.
fn begun<C: Replayed>(core: C, plan: Plan, lanes: u32) -> Found<C>
    requires { Sound plan }
    ensures { (line : List ℕ) → IsBegun C.rules C.stands line core plan lanes
        → Knows C.rules C.stands result (line ∷ []) }
{
    let bounds = bounds_of(&plan, lanes);
    Found::Going(Going {
        core,
        plan,
        bounds,
        entries: 0,
    })
}

/// Returns true if the line spells an entry.
pub(crate) fn spells_entry(alloc: Global, line: &[u8]) -> Result<bool, NoMemory>
    ensures { IfOk result (λ b. b ≡ is_some (entry_of line.now)) }
{
    match read_entry(alloc, line) {
        Ok(_) => Ok(true),
        Err(Misread::Otherwise) => Ok(false),
        Err(Misread::NoMemory) => Err(NoMemory),
    }
}

fn unsound_line<C: Replayed>(alloc: Global, number: u64, line: &[u8]) -> Result<Found<C>, NoMemory>
    ensures { (ls : List (List ℕ)) → IsBadPlan C.rules ls → number ≡ length ls + 1
        → IfOk result (λ f. Knows C.rules C.stands f (ls ++ line.now ∷ [])) }
{
    if spells_entry(alloc, line)? {
        Ok(Found::Unsound)
    } else {
        Ok(Found::Bad { line: number })
    }
}

fn wrong_line<C: Replayed>(
    alloc: Global,
    entry: u64,
    beyond: bool,
    number: u64,
    line: &[u8],
) -> Result<Found<C>, NoMemory>
    ensures { (ls : List (List ℕ)) → HasFault C.rules ls entry beyond → number ≡ length ls + 1
        → IfOk result (λ f. Knows C.rules C.stands f (ls ++ line.now ∷ [])) }
{
    if spells_entry(alloc, line)? {
        Ok(Found::Wrong { entry, beyond })
    } else {
        Ok(Found::Bad { line: number })
    }
}

fn next_line<C: Replayed>(
    alloc: Global,
    going: Going<C>,
    number: u64,
    line: &[u8],
) -> Result<Found<C>, NoMemory>
    ensures { (ls : List (List ℕ)) → IsLegalSoFar C.rules C.stands ls going
        → number ≡ length ls + 1 → length ls < 2 ^ 63
        → IfOk result (λ f. Knows C.rules C.stands f (ls ++ line.now ∷ [])) }
{
    match read_entry(alloc, line) {
        Ok(entry) => Ok(judged(going, entry)),
        Err(Misread::Otherwise) => Ok(Found::Bad { line: number }),
        Err(Misread::NoMemory) => Err(NoMemory),
    }
}

// Calls the core as the entry says, and compares its reply with the entry's.
fn judged<C: Replayed>(going: Going<C>, entry: Entry) -> Found<C>
    ensures { (ls : List (List ℕ)) (line : List ℕ) → IsLegalSoFar C.rules C.stands ls going
        → entry_of line ≡ Some entry → length ls < 2 ^ 63
        → Knows C.rules C.stands result (ls ++ line ∷ []) }
{
    let Going {
        core,
        plan,
        bounds,
        entries,
    } = going;
    let mut core = core;
    let reply = core.reply(entry.lane, &entry.call);
    if is_told(&entry.reply, &reply) {
        return Found::Going(Going {
            core,
            plan,
            bounds,
            entries: entries.saturating_add(1),
        });
    }
    let beyond = is_entry_beyond(bounds, &plan, &entry);
    Found::Wrong {
        entry: entries,
        beyond,
    }
}

/// Returns the verdict on these lines.
pub(crate) fn verdict_of<C: Replayed>(found: Found<C>) -> Verdict
    ensures { (ls : List (List ℕ)) → Knows C.rules C.stands found ls → Says C.rules ls result }
{
    match found {
        Found::Nothing => Verdict::BadLine { line: 1 },
        Found::Bad { line } => Verdict::BadLine { line },
        Found::Unsound => Verdict::BadPlan,
        Found::Wrong {
            entry,
            beyond: true,
        } => Verdict::OutOfPlan { entry },
        Found::Wrong {
            entry,
            beyond: false,
        } => Verdict::Illegal { entry },
        Found::Going(going) => Verdict::Yes {
            actions: going.bounds.actions,
            entries: going.entries,
        },
    }
}
