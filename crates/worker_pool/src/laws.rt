//! How the table follows a journal. The functions do nothing. Each one is a law, for a program that
//! keeps a table of a journal.
ghost use Rattle.std.specs.Prelude.{◌≡◌, ◌*◌, ◌/◌, ◌<◌, length, slice_get, true, false, Some, None, ℕ, ℤ, List, ◌∷◌};
ghost use Rattle.exec_journal.specs.declared.attempt.Attempt.{Attempt};
ghost use Rattle.exec_journal.specs.declared.call.Answer.{Answer};
ghost use Rattle.exec_journal.specs.declared.call.Call.TheVariants as call;
ghost use Rattle.exec_journal.specs.declared.call.Found.{Found};
ghost use Rattle.exec_journal.specs.declared.call.HowEnded.{HowEnded};
ghost use Rattle.exec_journal.specs.declared.call.Started.TheVariants as start;
ghost use Rattle.exec_journal.specs.declared.call.Written.TheVariants as write;
ghost use Rattle.exec_journal.specs.declared.call.Written.{Written};
ghost use Rattle.exec_journal.specs.Entry.{Entry};
ghost use Rattle.run_plan.specs.declared.plan.Branch.{Branch};
ghost use Rattle.run_plan.specs.declared.plan.Plan.{Plan};
ghost use Rattle.exec_journal.specs.declared.reply.BreachWhy.{BreachWhy};
ghost use Rattle.exec_journal.specs.declared.reply.Reply.TheVariants as reply;
ghost use Rattle.exec_journal.specs.declared.reply.Reply.{Reply};
ghost use Rattle.exec_journal.specs.Attempts.{line_of};
ghost use Rattle.exec_journal.specs.Entries.{Request, consumed_in, granted_in, is_unwritten};
ghost use Rattle.exec_journal.specs.Facts.{IsFresh, Begins, BeginInOrder, NameTheirLines};
ghost use Rattle.exec_journal.specs.Seated.{kind_for, line_kind};
ghost use Rattle.exec_journal.specs.Settled.{bound, free_places};
ghost use Rattle.run_plan.specs.Groups.{capacity};
ghost use Rattle.exec_journal.specs.Words.{answered, has_ended, is_pending, last_line, launch_of, line_count, pending, sends};
ghost use Rattle.worker_pool.specs.Entries.{entry, is_aside, ends_nothing, WantedStays, CarriesItsBound, AreOfAction, AreFaulted, IsPendingOn, IsPendingNowhere, IsFirstWrite, IsSentTo, IsNew};
ghost use Rattle.worker_pool.specs.Rows.{Facts, change, set_started, set_broken, set_ended, set_killed, set_unbound, one_more, one_fewer, with_unbound, with_launch, last_of, live_of, free_of, pending_of, capacity_of};
ghost use Rattle.worker_pool.specs.Stands.{Stands, live_in};

/// After a Launch of a berth of the plan, `launch` is called for it, which gives the line's number.
pub fn launches_are_kept()
    ensures { (p : Plan) (seats : ℕ) (f : Facts) (j : List Entry) (lane : ℕ) (t : Attempt)
        → Stands p seats f j
        → IsFresh j (line_count j) → IsNew p j t
        → Stands p seats (with_launch f (lane / 2) (kind_for p t)) (entry lane call.Ask
        (reply.Launch
        (line_count j) t.action t.branch t.number) ∷ j) }
{}

/// After a Launched with Done, `started` is called.
pub fn starts_are_kept()
    ensures { (p : Plan) (seats : ℕ) (f : Facts) (j : List Entry) (lane l : ℕ) → Stands p seats f j
        → Stands p seats (change f l set_started) (entry lane
        (call.Launched l start.Done) reply.Noted ∷ j) }
{}

/// After a Send, `sent` is called, and also `unbound` if it sends the branch that is bound to the
/// line. Any other branch is sent only if nothing is bound to the line.
pub fn sends_are_kept()
    ensures bound { (p : Plan) (seats : ℕ) (f : Facts) (j : List Entry) (lane l : ℕ) (n : ℤ)
        (t : Attempt)
        → Stands p seats f j → IsSentTo j t l → bound p j l ≡ Some t
        → Stands p seats (change (change f l one_more) l set_unbound) (entry lane call.Ask
        (reply.Send l n t.action t.branch t.number) ∷ j) }
    ensures other { (p : Plan) (seats : ℕ) (f : Facts) (j : List Entry) (lane l : ℕ) (n : ℤ)
        (t : Attempt)
        → Stands p seats f j → IsSentTo j t l → bound p j l ≡ None
        → Stands p seats (change f l one_more) (entry lane call.Ask
        (reply.Send l n t.action t.branch t.number) ∷ j) }
{}

/// After an Answer that is Matched or Late, `freed` is called for the line on which its request is
/// pending.
pub fn answers_are_kept()
    ensures { (p : Plan) (seats : ℕ) (f : Facts) (j : List Entry) (lane l : ℕ) (a : Answer)
        (x : Reply)
        (t : Attempt) → Stands p seats f j → consumed_in x ≡ Some t → IsPendingOn j t l
        → Stands p seats (change f l one_fewer) (entry lane (call.Answer l a) x ∷ j) }
{}

/// After a Wrote with RoomFault or TooLarge, the call depends on the request. If the request isn't
/// answered, `freed` is called for the line on which it is pending. If it isn't pending either
/// (after the Ended of its line), nothing is called. If the request was answered, only `broke` is
/// called.
pub fn faulty_writes_are_kept()
    ensures pending { (p : Plan) (seats : ℕ) (f : Facts) (j : List Entry) (lane k : ℕ) (n : ℤ)
        (how : Written)
        (q : Request) (l : ℕ) → Stands p seats f j → is_unwritten how ≡ true → IsFirstWrite j lane q
        → WantedStays p j (entry lane (call.Wrote k n how) reply.Noted)
        → answered j q.attempt ≡ false → IsPendingOn j q.attempt l
        → Stands p seats (change f l one_fewer) (entry lane (call.Wrote k n how) reply.Noted ∷ j) }
    ensures gone { (p : Plan) (seats : ℕ) (f : Facts) (j : List Entry) (lane k : ℕ) (n : ℤ)
        (how : Written)
        (q : Request) → Stands p seats f j → is_unwritten how ≡ true → IsFirstWrite j lane q
        → WantedStays p j (entry lane (call.Wrote k n how) reply.Noted)
        → answered j q.attempt ≡ false → IsPendingNowhere j q.attempt
        → Stands p seats f (entry lane (call.Wrote k n how) reply.Noted ∷ j) }
    ensures answered { (p : Plan) (seats : ℕ) (f : Facts) (j : List Entry) (lane k : ℕ) (n : ℤ)
        (how : Written) (q : Request) → Stands p seats f j → is_unwritten how ≡ true
        → IsFirstWrite j lane q → WantedStays p j (entry lane (call.Wrote k n how) reply.Noted)
        → answered j q.attempt ≡ true
        → Stands p seats (change f k set_broken) (entry lane (call.Wrote k n how) reply.Noted ∷ j) }
{}

/// After a Wrote with FeedFault, `broke` is called.
pub fn feed_faults_are_kept()
    ensures { (p : Plan) (seats : ℕ) (f : Facts) (j : List Entry) (lane l : ℕ) (n : ℤ)
        → Stands p seats f j
        → WantedStays p j (entry lane (call.Wrote l n write.FeedFault) reply.Noted)
        → Stands p seats (change f l set_broken) (entry lane
        (call.Wrote l n write.FeedFault) reply.Noted ∷ j) }
{}

/// After an Answer whose reply is a Breach, `broke` is called.
pub fn breaches_are_kept()
    ensures { (p : Plan) (seats : ℕ) (f : Facts) (j : List Entry) (lane l : ℕ) (a : Answer)
        (y : BreachWhy)
        → Stands p seats f j
        → Stands p seats (change f l set_broken) (entry lane (call.Answer l a)
        (reply.Breach y) ∷ j) }
{}

/// After an Ended, `ended` is called, regardless of what is pending on the line.
pub fn ends_are_kept()
    ensures { (p : Plan) (seats : ℕ) (f : Facts) (j : List Entry) (lane l : ℕ) (how : HowEnded)
        → Stands p seats f j → WantedStays p j (entry lane (call.Ended l how) reply.Noted)
        → CarriesItsBound p j
        → Stands p seats (change f l set_ended) (entry lane (call.Ended l how) reply.Noted ∷ j) }
{}

/// After a Killed, `killed` is called.
pub fn kills_are_kept()
    ensures { (p : Plan) (seats : ℕ) (f : Facts) (j : List Entry) (lane l : ℕ) → Stands p seats f j
        → Stands p seats (change f l set_killed) (entry lane (call.Killed l) reply.Noted ∷ j) }
{}

/// After a granted Claim, `unbound` is called for each line to which a branch of the action is
/// bound.
pub fn grants_are_kept()
    ensures { (p : Plan) (seats : ℕ) (f : Facts) (j : List Entry) (lane a n : ℕ) (b : Branch)
        (found : Found)
        (ls : List ℕ) → Stands p seats f j
        → WantedStays p j (entry lane (call.Claim a b n found) reply.Granted)
        → AreOfAction p j a ls
        → Stands p seats (with_unbound f ls) (entry lane
        (call.Claim a b n found) reply.Granted ∷ j) }
{}

/// After any other entry, `unbound` is called for each line to which a branch is bound whose fault
/// the entry reports. A Launched with a fault is an example of such an entry.
pub fn faults_are_kept()
    ensures { (p : Plan) (seats : ℕ) (f : Facts) (j : List Entry) (e : Entry) (ls : List ℕ)
        → Stands p seats f j
        → is_aside e ≡ true → granted_in e.call e.reply ≡ None → WantedStays p j e
        → AreFaulted p j e ls → Stands p seats (with_unbound f ls) (e ∷ j) }
{}

/// If no attempt can end with such an entry, and nothing can be granted or committed, nothing is called.
pub fn others_change_nothing()
    ensures { (p : Plan) (seats : ℕ) (f : Facts) (j : List Entry) (e : Entry) → Stands p seats f j
        → is_aside e ≡ true → ends_nothing e.call ≡ true → Stands p seats f (e ∷ j) }
{}

/// If attempts begin in order, which they do in each legal journal, each attempt has only one
/// request. So only that one can be pending, and a branch that is bound to a line or sent to it has
/// no other line.
pub fn attempts_are_sent_once()
    ensures pending { (j : List Entry) (l i : ℕ) (q : Request) → BeginInOrder j
        → slice_get (sends j l) i ≡ Some q → is_pending j q ≡ true → IsPendingOn j q.attempt l }
    ensures nowhere { (j : List Entry) (l i : ℕ) (q : Request) → BeginInOrder j
        → slice_get (sends j l) i ≡ Some q → is_pending j q ≡ false → IsPendingNowhere j q.attempt }
    ensures sent { (j : List Entry) (q : Request) → BeginInOrder j → Begins j None (Some q)
        → has_ended j q.line ≡ false → answered j q.attempt ≡ false → IsSentTo j q.attempt q.line }
    ensures carrier { (p : Plan) (j : List Entry) (l : ℕ) (t : Attempt) → BeginInOrder j
        → bound p j l ≡ Some t → line_of j t ≡ Some l }
{}

/// The values that are read agree with the journal.
pub fn lines_are_the_journals()
    ensures count { (p : Plan) (seats : ℕ) (f : Facts) (j : List Entry) → Stands p seats f j
        → length f.lines ≡ line_count j }
    ensures last { (p : Plan) (seats : ℕ) (f : Facts) (j : List Entry) (w : ℕ)
        → Stands p seats f j → w < seats
        → last_of f w ≡ last_line j w }
    ensures live { (p : Plan) (seats : ℕ) (f : Facts) (j : List Entry) (w : ℕ)
        → Stands p seats f j → w < seats
        → NameTheirLines j → live_of f w ≡ live_in j w }
    ensures free { (p : Plan) (seats : ℕ) (f : Facts) (j : List Entry) (l lane : ℕ) (t : Attempt)
        → Stands p seats f j → launch_of j l ≡ Some (lane, t)
        → free_of f l ≡ free_places p j (line_kind p j l) l }
    ensures pending { (p : Plan) (seats : ℕ) (f : Facts) (j : List Entry) (l lane : ℕ) (t : Attempt)
        → Stands p seats f j → launch_of j l ≡ Some (lane, t)
        → pending_of f l ≡ length (pending j l) }
    ensures capacity { (p : Plan) (seats : ℕ) (f : Facts) (j : List Entry) (l lane : ℕ)
        (t : Attempt)
        → Stands p seats f j → launch_of j l ≡ Some (lane, t)
        → capacity_of f l ≡ capacity (line_kind p j l) }
{}

/// The conditions of the calls, in terms of the journal.
pub fn calls_may_be_made()
    ensures berth { (p : Plan) (seats : ℕ) (f : Facts) (j : List Entry) (w : ℕ)
        → Stands p seats f j → w < seats
        → w < length f.seats }
    ensures line { (p : Plan) (seats : ℕ) (f : Facts) (j : List Entry) (l lane : ℕ) (t : Attempt)
        → Stands p seats f j → launch_of j l ≡ Some (lane, t) → l < length f.lines }
    ensures launch { (p : Plan) (seats : ℕ) (f : Facts) (j : List Entry) → Stands p seats f j
        → line_count j < 2 * length p.actions * p.limit → length f.lines < f.room }
    ensures sent { (p : Plan) (seats : ℕ) (f : Facts) (j : List Entry) (l lane : ℕ) (t : Attempt)
        → Stands p seats f j → launch_of j l ≡ Some (lane, t)
        → length (pending j l) < capacity (line_kind p j l)
        → pending_of f l < capacity_of f l }
    ensures freed { (p : Plan) (seats : ℕ) (f : Facts) (j : List Entry) (l lane : ℕ) (t u : Attempt)
        → Stands p seats f j → launch_of j l ≡ Some (lane, t) → IsPendingOn j u l
        → 0 < pending_of f l }
{}
