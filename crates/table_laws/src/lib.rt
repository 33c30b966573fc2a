//! The premises of the tables' laws hold in every legal journal. The functions do nothing: each is a law,
//! for the core that keeps the tables.
#![tactic(auto)]

mod laws;

ghost use Rattle.std.specs.Prelude.{◌≡◌, ◌<◌, ◌⊎◌, ◌&&◌, not, ℕ, ℤ, List, [], ◌∷◌, Some, None, true, false};
ghost use Rattle.exec_journal.specs.declared.attempt.Attempt.{Attempt};
ghost use Rattle.exec_journal.specs.declared.call.Answer.{Answer};
ghost use Rattle.exec_journal.specs.declared.call.Call.TheVariants as call;
ghost use Rattle.exec_journal.specs.declared.call.CommitEnd.{CommitEnd};
ghost use Rattle.exec_journal.specs.declared.call.Found.{Found};
ghost use Rattle.exec_journal.specs.declared.call.HowEnded.{HowEnded};
ghost use Rattle.exec_journal.specs.declared.call.Started.{Started};
ghost use Rattle.exec_journal.specs.declared.call.Started.TheVariants as start;
ghost use Rattle.exec_journal.specs.declared.call.Written.{Written};
ghost use Rattle.exec_journal.specs.declared.call.Written.TheVariants as write;
ghost use Rattle.exec_journal.specs.Entry.{Entry};
ghost use Rattle.run_plan.specs.declared.plan.Branch.{Branch};
ghost use Rattle.run_plan.specs.declared.plan.Plan.{Plan};
ghost use Rattle.exec_journal.specs.declared.reply.Reply.TheVariants as reply;
ghost use Rattle.exec_journal.specs.Entries.{Request, is_done, is_unwritten, launch_in, send_in, consumed_in, granted_in, refused_in};
ghost use Rattle.exec_journal.specs.Words.{launch_of, order_of, has_ended, answered, granted, is_pending, pending};
ghost use Rattle.exec_journal.specs.Attempts.{begun_in, line_of};
ghost use Rattle.run_plan.specs.Sound.{Sound};
ghost use Rattle.run_plan.specs.Groups.{berths};
ghost use Rattle.exec_journal.specs.Lawful.{Lawful};
ghost use Rattle.exec_journal.specs.Seated.{group_on};
ghost use Rattle.exec_journal.specs.Facts.{begun, IsOfBerth};
ghost use Rattle.journal_laws.specs.Invariant.{is_quiet_call, IsGoing};
ghost use Rattle.call_laws.specs.Moments.{lost_with};
ghost use Rattle.ready_order.specs.Entries as queue;
ghost use Rattle.race_core.specs.Entries as race;
ghost use Rattle.retry_rules.specs.Entries as retry;
ghost use Rattle.worker_pool.specs.Entries as pool;
ghost use Rattle.request_table.specs.Entries as table;
ghost use Rattle.cancel_rules.specs.Entries as rules;
ghost use Rattle.table_laws.specs.Asked.{is_commit, lines_bound_for, EndsOne};

pub use laws::all_facts;

/// Exactly one attempt ends with each of these entries: a refused Claim, a Launched with a fault,
/// and a Wrote which reports that its request wasn't written. The same holds for a Wrote with
/// FeedFault after the line's Ended.
pub fn one_ends()
    ensures claimed { (p : Plan) (e : Entry) (j : List Entry) (y : Attempt × Found)
        → Lawful p (e ∷ j) → refused_in e.call e.reply ≡ Some y → EndsOne j e y.0 }
    ensures launched { (p : Plan) (e : Entry) (j : List Entry) (l m : ℕ) (how : Started)
        (s : Attempt) → Lawful p (e ∷ j) → e.call ≡ call.Launched l how → is_done how ≡ false
        → launch_of j l ≡ Some (m, s) → granted j s.action ≡ false → EndsOne j e s }
    ensures written { (p : Plan) (e : Entry) (j : List Entry) (l : ℕ) (n : ℤ) (how : Written)
        (x : Request) → Lawful p (e ∷ j) → e.call ≡ call.Wrote l n how → is_unwritten how ≡ true
        → order_of j e.lane ≡ Some x → (has_ended j x.line ≡ false)
        ⊎ (answered j x.attempt ≡ true) → granted j x.attempt.action ≡ false
        → EndsOne j e x.attempt }
    ensures fed { (p : Plan) (e : Entry) (j : List Entry) (l : ℕ) (n : ℤ) (x : Request)
        → Lawful p (e ∷ j) → e.call ≡ call.Wrote l n write.FeedFault → order_of j e.lane ≡ Some x
        → has_ended j x.line ≡ true → answered j x.attempt ≡ true
        → granted j x.attempt.action ≡ false → EndsOne j e x.attempt }
{}

/// No attempt ends with these entries: of a granted action, of a request that ended with its line,
/// successes, a Claim that is granted or lost, and quiet ones.
pub fn none_ends()
    ensures quiet { (p : Plan) (e : Entry) (j : List Entry) → Lawful p (e ∷ j)
        → is_quiet_call e.call ≡ true → retry.EndsNone j e }
    ensures launched { (p : Plan) (e : Entry) (j : List Entry) (l m : ℕ) (how : Started)
        (s : Attempt) → Lawful p (e ∷ j) → e.call ≡ call.Launched l how → is_done how ≡ false
        → launch_of j l ≡ Some (m, s) → granted j s.action ≡ true → retry.EndsNone j e }
    ensures written { (p : Plan) (e : Entry) (j : List Entry) (l : ℕ) (n : ℤ) (how : Written)
        (x : Request) → Lawful p (e ∷ j) → e.call ≡ call.Wrote l n how → is_unwritten how ≡ true
        → order_of j e.lane ≡ Some x → granted j x.attempt.action ≡ true → retry.EndsNone j e }
    ensures left { (p : Plan) (e : Entry) (j : List Entry) (l : ℕ) (n : ℤ) (how : Written)
        (x : Request) → Lawful p (e ∷ j) → e.call ≡ call.Wrote l n how → is_unwritten how ≡ true
        → order_of j e.lane ≡ Some x → has_ended j x.line ≡ true → answered j x.attempt ≡ false
        → retry.EndsNone j e }
    ensures fed { (p : Plan) (e : Entry) (j : List Entry) (l : ℕ) (n : ℤ) (x : Request)
        → Lawful p (e ∷ j) → e.call ≡ call.Wrote l n write.FeedFault → order_of j e.lane ≡ Some x
        → (has_ended j x.line && (answered j x.attempt && not (granted j x.attempt.action)))
        ≡ false → retry.EndsNone j e }
    ensures started { (p : Plan) (e : Entry) (j : List Entry) (l : ℕ) → Lawful p (e ∷ j)
        → e.call ≡ call.Launched l start.Done → retry.EndsNone j e }
    ensures done { (p : Plan) (e : Entry) (j : List Entry) (l : ℕ) (n : ℤ) (how : Written)
        → Lawful p (e ∷ j) → e.call ≡ call.Wrote l n how → (how ≡ write.Done)
        ⊎ (order_of j e.lane ≡ None) → retry.EndsNone j e }
    ensures claimed { (p : Plan) (e : Entry) (j : List Entry) (a : ℕ) (b : Branch) (t : ℕ)
        (x : Found) → Lawful p (e ∷ j) → e.call ≡ call.Claim a b t x → (e.reply ≡ reply.Granted)
        ⊎ (e.reply ≡ reply.Lost) → retry.EndsNone j e }
{}

/// The premises of the order of branches: with an Ended the attempts of `lost_with` end, and with each
/// other fault one attempt.
pub fn queue_facts()
    ensures begins { (p : Plan) (e : Entry) (j : List Entry) (t : Attempt) → Lawful p (e ∷ j)
        → begun_in e.reply ≡ Some t → begun j t ≡ false → queue.BeginsThis j e t }
    ensures going { (p : Plan) (j : List Entry) (t : Attempt) → Sound p → Lawful p j → IsGoing j t
        → queue.IsUnderWay p j t }
    ensures ends { (p : Plan) (e : Entry) (j : List Entry) (y : Attempt) → Sound p
        → Lawful p (e ∷ j) → EndsOne j e y → queue.EndsThese p j e (y ∷ []) }
    ensures lost { (p : Plan) (e : Entry) (j : List Entry) (l : ℕ) (how : HowEnded) → Sound p
        → Lawful p (e ∷ j) → e.call ≡ call.Ended l how
        → queue.EndsThese p j e (lost_with p j l) }
    ensures grants { (p : Plan) (e : Entry) (j : List Entry) (y : Attempt × Found)
        → Lawful p (e ∷ j) → granted_in e.call e.reply ≡ Some y → queue.IsOpen j y.0.action }
    ensures commits { (p : Plan) (e : Entry) (j : List Entry) (a : ℕ) (b : Branch)
        (how : CommitEnd) → Lawful p (e ∷ j) → e.call ≡ call.Committed a b how
        → queue.WonFiles j a b }
    ensures quiet { (p : Plan) (e : Entry) (j : List Entry) → Lawful p (e ∷ j)
        → is_quiet_call e.call ≡ true → is_commit e.call ≡ false → begun_in e.reply ≡ None
        → queue.SameBranches j (e ∷ j) }
    ensures sends { (p : Plan) (e : Entry) (j : List Entry) (t : Attempt) → Lawful p (e ∷ j)
        → begun_in e.reply ≡ Some t → begun j t ≡ true → e.call ≡ call.Ask
        → queue.SameBranches j (e ∷ j) }
    ensures greets { (p : Plan) (e : Entry) (j : List Entry) → Lawful p (e ∷ j)
        → e.reply ≡ reply.Greeted → queue.SameBranches j (e ∷ j) }
    ensures starts { (p : Plan) (e : Entry) (j : List Entry) (l : ℕ) → Lawful p (e ∷ j)
        → e.call ≡ call.Launched l start.Done → queue.SameBranches j (e ∷ j) }
    ensures writes { (p : Plan) (e : Entry) (j : List Entry) (l : ℕ) (n : ℤ) (how : Written)
        → Lawful p (e ∷ j) → e.call ≡ call.Wrote l n how → (how ≡ write.Done)
        ⊎ (order_of j e.lane ≡ None) → queue.SameBranches j (e ∷ j) }
    ensures feeds { (p : Plan) (e : Entry) (j : List Entry) (l : ℕ) (n : ℤ) (x : Request)
        → Lawful p (e ∷ j) → e.call ≡ call.Wrote l n write.FeedFault → order_of j e.lane ≡ Some x
        → has_ended j x.line ≡ false → queue.SameBranches j (e ∷ j) }
    ensures loses { (p : Plan) (e : Entry) (j : List Entry) (a : ℕ) (b : Branch) (t : ℕ)
        (x : Found) → Lawful p (e ∷ j) → e.call ≡ call.Claim a b t x → e.reply ≡ reply.Lost
        → queue.SameBranches j (e ∷ j) }
{}

/// The premises of the race.
pub fn race_facts()
    ensures grants { (p : Plan) (e : Entry) (j : List Entry) (y : Attempt × Found)
        → Lawful p (e ∷ j) → granted_in e.call e.reply ≡ Some y → race.IsOpen j y.0.action }
    ensures commits { (p : Plan) (e : Entry) (j : List Entry) (a : ℕ) (b : Branch)
        (how : CommitEnd) → Lawful p (e ∷ j) → e.call ≡ call.Committed a b how → race.WonBy j a b }
    ensures others { (p : Plan) (e : Entry) (j : List Entry) → Lawful p (e ∷ j)
        → granted_in e.call e.reply ≡ None → is_commit e.call ≡ false → race.SameRace j (e ∷ j) }
{}

/// The premises of the count of ends, for the same entries.
pub fn retry_facts()
    ensures going { (j : List Entry) (t : Attempt) → IsGoing j t
        → retry.IsGoing j t.action t.branch }
    ensures ends { (e : Entry) (j : List Entry) (y : Attempt) → EndsOne j e y
        → retry.EndsThese j e (y ∷ []) }
    ensures lost { (p : Plan) (e : Entry) (j : List Entry) (l : ℕ) (how : HowEnded)
        → Lawful p (e ∷ j) → e.call ≡ call.Ended l how
        → retry.EndsThese j e (lost_with p j l) }
{}

/// The premises of the pool of lines. They are about the lines with a bound branch, the lines of an
/// action, and the line of a fault. They are also about the line on which the request of a Wrote or
/// an Answer is pending.
pub fn pool_facts()
    ensures wanted { (p : Plan) (e : Entry) (j : List Entry) → Lawful p (e ∷ j)
        → pool.WantedStays p j e }
    ensures carries { (p : Plan) (j : List Entry) → Lawful p j → pool.CarriesItsBound p j }
    ensures launches { (p : Plan) (e : Entry) (j : List Entry) (x : ℕ × Attempt) → Sound p
        → Lawful p (e ∷ j) → launch_in e.reply ≡ Some x → pool.IsNew p j x.1 }
    ensures sends { (p : Plan) (e : Entry) (j : List Entry) (x : Request) → Lawful p (e ∷ j)
        → send_in e.reply ≡ Some x → pool.IsSentTo j x.attempt x.line }
    ensures answers { (p : Plan) (e : Entry) (j : List Entry) (l : ℕ) (x : Answer) (s : Attempt)
        → Lawful p (e ∷ j) → e.call ≡ call.Answer l x → consumed_in e.reply ≡ Some s
        → pool.IsPendingOn j s l }
    ensures writes { (p : Plan) (j : List Entry) (lane : ℕ) (x : Request) → Lawful p j
        → order_of j lane ≡ Some x → pool.IsFirstWrite j lane x }
    ensures written { (p : Plan) (j : List Entry) (lane : ℕ) (x : Request) → Lawful p j
        → order_of j lane ≡ Some x → is_pending j x ≡ true
        → pool.IsPendingOn j x.attempt x.line }
    ensures closed { (p : Plan) (j : List Entry) (lane : ℕ) (x : Request) → Lawful p j
        → order_of j lane ≡ Some x → is_pending j x ≡ false → pool.IsPendingNowhere j x.attempt }
    ensures pending { (p : Plan) (j : List Entry) (l : ℕ) → Lawful p j
        → table.EachOf (λ x. pool.IsPendingOn j x.attempt l) (pending j l) }
    ensures faults { (p : Plan) (e : Entry) (j : List Entry) (l : ℕ) (how : Started)
        → Lawful p (e ∷ j) → e.call ≡ call.Launched l how → is_done how ≡ false
        → pool.AreFaulted p j e (l ∷ []) }
    ensures grants { (p : Plan) (j : List Entry) (a : ℕ) → Lawful p j
        → ((l w : ℕ) → IsOfBerth j l w → w < berths p)
        → pool.AreOfAction p j a (lines_bound_for p j a) }
{}

/// The premises of the table of requests.
pub fn request_facts()
    ensures fresh { (p : Plan) (e : Entry) (j : List Entry) (x : Request) → Lawful p (e ∷ j)
        → send_in e.reply ≡ Some x → table.IsNewRequest j x.line x.attempt }
    ensures sends { (p : Plan) (e : Entry) (j : List Entry) (x : Request)
        → Sound p → Lawful p (e ∷ j) → send_in e.reply ≡ Some x
        → table.IsNextSend p j (group_on p j x.line) x.line x.number
        x.attempt.action x.attempt.branch x.attempt.number }
    ensures answers { (p : Plan) (e : Entry) (j : List Entry) (l : ℕ) (x : Answer) (s : Attempt)
        → Lawful p (e ∷ j) → e.call ≡ call.Answer l x → consumed_in e.reply ≡ Some s
        → table.IsKnownBy j l x.number s }
    ensures writes { (p : Plan) (e : Entry) (j : List Entry) (l : ℕ) (n : ℤ) (how : Written)
        (x : Request) → Lawful p (e ∷ j) → e.call ≡ call.Wrote l n how
        → order_of j e.lane ≡ Some x → table.IsKnownBy j l n x.attempt }
    ensures pending { (p : Plan) (j : List Entry) (l w : ℕ) → Lawful p j → IsOfBerth j l w
        → table.EachOf (λ x. table.IsKnownBy j l x.number x.attempt) (pending j l) }
    ensures ended { (p : Plan) (j : List Entry) (s : Attempt) (l : ℕ) → Lawful p j
        → line_of j s ≡ Some l → has_ended j l ≡ true → table.IsPast j s }
    ensures answered { (j : List Entry) (s : Attempt) → answered j s ≡ true → table.IsPast j s }
{}

/// The premises of the rules of cancellation.
pub fn cancel_facts()
    ensures { (p : Plan) (j : List Entry) (l : ℕ) → Lawful p j → rules.WantedByGrant p j l }
{}
