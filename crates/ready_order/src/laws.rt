//! How the table follows a journal. The functions do nothing. Each one is a law, for a program that
//! keeps a table of a journal.
ghost use Rattle.std.specs.Prelude.{◌≡◌, ◌==◌, ◌<◌, ℕ, ℤ, List, ◌∷◌, Option, false, length};
ghost use Rattle.exec_journal.specs.declared.attempt.Attempt.{Attempt};
ghost use Rattle.exec_journal.specs.declared.call.Call.TheVariants.{Claim, Committed};
ghost use Rattle.exec_journal.specs.declared.call.CommitEnd.{CommitEnd};
ghost use Rattle.exec_journal.specs.declared.call.Found.TheVariants.{Files, Exit};
ghost use Rattle.exec_journal.specs.Entry.{Entry};
ghost use Rattle.run_plan.specs.declared.plan.Branch.{Branch};
ghost use Rattle.run_plan.specs.declared.plan.Plan.{Plan};
ghost use Rattle.run_plan.specs.Sound.{Sound};
ghost use Rattle.exec_journal.specs.declared.reply.Reply.TheVariants.{Granted, Noted};
ghost use Rattle.exec_journal.specs.Settled.{all_settled, earliest};
ghost use Rattle.ready_order.specs.declared.ActionState.{ActionState};
ghost use Rattle.ready_order.specs.Queue.{IsEarliest, earliest_in, least_among, none_waits, with_taken, with_unwanted, with_settled};
ghost use Rattle.ready_order.specs.Stands.{Stands, branch_of};
ghost use Rattle.ready_order.specs.Entries.{BeginsThis, EndsThese, IsOpen, WonFiles, SameBranches, with_ends, is_done};

/// After a Launch, or a Send of an attempt that wasn't launched, `taken` is called once.
pub fn begins_are_taken()
    ensures { (p : Plan) (states : List ActionState) (j : List Entry) (e : Entry) (t : Attempt)
        → Stands p states j → BeginsThis j e t
        → Stands p (with_taken states t.action t.branch) (e ∷ j) }
{}

/// After an entry with which attempts end, `again` is called for each of them that was below the
/// limit. For each other one, `settle` is called without success if all branches of its action are
/// dropped now.
pub fn ends_are_followed()
    ensures { (p : Plan) (states : List ActionState) (j : List Entry) (e : Entry)
        (ts : List Attempt) → Stands p states j → EndsThese p j e ts
        → Stands p (with_ends p (e ∷ j) states ts) (e ∷ j) }
{}

/// After a granted Claim, `unwanted` is called. If the Claim found an exit code, `settle` is called
/// too, without success.
pub fn grants_are_followed()
    ensures files { (p : Plan) (states : List ActionState) (j : List Entry) (lane a t : ℕ)
        (b : Branch) (contents : List (List ℕ)) → Stands p states j → IsOpen j a
        → Stands p (with_unwanted states a) (record {
          lane = lane;
          call = Claim a b t
              (Files contents);
          reply = Granted;
        } ∷ j) }
    ensures exit { (p : Plan) (states : List ActionState) (j : List Entry) (lane a t : ℕ)
        (b : Branch) (code : ℤ) → Stands p states j → IsOpen j a
        → Stands p (with_settled (with_unwanted states a) a false)
        (record { lane = lane; call = Claim a b t (Exit code); reply = Granted } ∷ j) }
{}

/// After a Committed of the branch that was granted files, `settle` is called. It has success
/// exactly if the call reports Done.
pub fn commits_are_followed()
    ensures { (p : Plan) (states : List ActionState) (j : List Entry) (lane a : ℕ) (b : Branch)
        (how : CommitEnd) → Stands p states j → WonFiles j a b
        → Stands p (with_settled states a (is_done how))
        (record { lane = lane; call = Committed a b how; reply = Noted } ∷ j) }
{}

/// After any other entry, nothing is called.
pub fn others_change_nothing()
    ensures { (p : Plan) (states : List ActionState) (j k : List Entry) → Stands p states j
        → SameBranches j k → Stands p states k }
{}

/// The table's answers are the journal's: the action and the branch of the group's earliest queued
/// branch. If the plan is sound, the table also answers if all actions are settled.
pub fn answers_are_the_journals()
    ensures earliest { (p : Plan) (states : List ActionState) (j : List Entry) (g : ℕ)
        (answer : Option (ℕ × Branch))
        → Stands p states j → IsEarliest states g answer
        → answer ≡ branch_of (earliest p j g) }
    ensures search { (p : Plan) (states : List ActionState) (j : List Entry) (g : ℕ)
        → Stands p states j → earliest_in states g ≡ branch_of (earliest p j g) }
    ensures settled { (p : Plan) (states : List ActionState) (j : List Entry) → Stands p states j
        → Sound p → none_waits states ≡ all_settled p j }
{}

/// The table has a state for each action of the plan, so every call may name it.
pub fn actions_are_known()
    ensures { (p : Plan) (states : List ActionState) (j : List Entry) (a : ℕ) → Stands p states j
        → a < length p.actions → a < length states }
{}

/// In a set of only one group, the least action is the earliest of the group.
pub fn one_group_has_its_earliest()
    ensures { (states : List ActionState) (g : ℕ)
        → least_among states (λ k. k == g) ≡ earliest_in states g }
{}
