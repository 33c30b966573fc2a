//! How the table follows a journal. The functions do nothing. Each one is a law, for a program that
//! keeps a table of a journal.
ghost use Rattle.std.specs.Prelude.{◌≡◌, ◌+◌, ◌<◌, ◌≤◌, nat_le, ℕ, List, ◌∷◌, Some, false, length};
ghost use Rattle.exec_journal.specs.declared.attempt.Attempt.{Attempt};
ghost use Rattle.exec_journal.specs.Entry.{Entry};
ghost use Rattle.run_plan.specs.declared.plan.Branch.{Branch};
ghost use Rattle.run_plan.specs.declared.plan.Plan.{Plan};
ghost use Rattle.exec_journal.specs.Attempts.{attempt, begun_in, ended};
ghost use Rattle.exec_journal.specs.Facts.{BeginsNext, AttemptsInOrder, begun};
ghost use Rattle.retry_rules.specs.Counts.{Facts, with_ends, ended_of, after_attempt};
ghost use Rattle.retry_rules.specs.Entries.{EndsThese, EndsNone, IsGoing};
ghost use Rattle.retry_rules.specs.Stands.{Stands};

/// After an entry with which attempts end, `after_end` is called once for each of them.
pub fn ends_are_counted()
    ensures { (p : Plan) (f : Facts) (j : List Entry) (e : Entry) (ts : List Attempt)
        → Stands p f j → EndsThese j e ts → Stands p (with_ends f ts) (e ∷ j) }
{}

/// After an entry that begins the next attempt of a branch while none ends, nothing is called.
pub fn begins_count_nothing()
    ensures { (p : Plan) (f : Facts) (j : List Entry) (e : Entry) (t : Attempt) → Stands p f j
        → begun_in e.reply ≡ Some t → BeginsNext j t → ended j t ≡ false → EndsNone j e
        → Stands p f (e ∷ j) }
{}

/// After any other entry with which no attempt begins or ends, nothing is called.
pub fn others_count_nothing()
    ensures { (p : Plan) (f : Facts) (j : List Entry) (e : Entry) → Stands p f j
        → ((a : ℕ) (b : Branch) → attempt (e ∷ j) a b ≡ attempt j a b) → EndsNone j e
        → Stands p f (e ∷ j) }
{}

/// If a branch's latest attempt is under way, the table's count is below the limit, and its next
/// answer is about that attempt.
pub fn answers_are_of_the_latest()
    ensures below { (p : Plan) (f : Facts) (j : List Entry) (a : ℕ) (b : Branch) → Stands p f j
        → AttemptsInOrder p j → 0 < p.limit → a < length p.actions → IsGoing j a b
        → ended_of f a b < f.limit }
    ensures answer { (p : Plan) (f : Facts) (j : List Entry) (a : ℕ) (b : Branch) → Stands p f j
        → a < length p.actions → IsGoing j a b
        → after_attempt (ended_of f a b + 1) f.limit ≡ after_attempt (attempt j a b) p.limit }
{}

/// An attempt of an action of the plan has ended exactly if its number is at most the count of its
/// branch. Every attempt that has ended was begun.
pub fn counts_tell_ends()
    ensures { (p : Plan) (f : Facts) (j : List Entry) (t : Attempt) → Stands p f j
        → AttemptsInOrder p j → ((u : Attempt) → begun j u ≡ false → ended j u ≡ false)
        → t.action < length p.actions → 1 ≤ t.number
        → nat_le t.number (ended_of f t.action t.branch) ≡ ended j t }
{}
