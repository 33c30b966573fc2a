//! Laws of every legal journal. The functions do nothing: each is a law, for code that keeps tables of a
//! journal.
ghost use Rattle.std.specs.Prelude.{◌≡◌, ◌≤◌, ◌<◌, ◌*◌, ◌/◌, ◌⊎◌, ◌↔◌, ◌+◌, ◌==◌, ◌&&◌, ◌||◌, not, ℕ, ℤ, List, [], ◌∷◌, length, Some, None, true, false, slice_get};
ghost use Rattle.std.specs.List.{list_all};
ghost use Rattle.exec_journal.specs.declared.attempt.Attempt.{Attempt};
ghost use Rattle.exec_journal.specs.declared.ends.Cause.{Cause};
ghost use Rattle.exec_journal.specs.Entry.{Entry};
ghost use Rattle.run_plan.specs.declared.plan.Plan.{Plan};
ghost use Rattle.exec_journal.specs.Words.{line_count, launch_of, started, failed, was_taken, was_killed, kill_ordered, has_spoken, has_greeted, granted, grant_of, halted, stopped, has_ended, order_of, wrote, says_unwritten, says_feed_fault, answered, is_pending, pending};
ghost use Rattle.exec_journal.specs.Attempts.{attempt, end_of, ended, begun_in, line_of};
ghost use Rattle.exec_journal.specs.Entries.{Request, same_attempt, same_branch, is_done, is_unwritten, launch_in, send_in, gather_in, granted_in, refused_in, consumed_in, matched_in, orders_kill};
ghost use Rattle.exec_journal.specs.declared.call.Answer.{Answer};
ghost use Rattle.exec_journal.specs.declared.call.Call.{Call};
ghost use Rattle.exec_journal.specs.declared.call.Call.TheVariants as call;
ghost use Rattle.exec_journal.specs.declared.call.CommitEnd.{CommitEnd};
ghost use Rattle.exec_journal.specs.declared.call.Found.{Found};
ghost use Rattle.exec_journal.specs.declared.call.HowEnded.{HowEnded};
ghost use Rattle.exec_journal.specs.declared.call.Started.{Started};
ghost use Rattle.exec_journal.specs.declared.call.Written.{Written};
ghost use Rattle.exec_journal.specs.declared.call.Written.TheVariants as write;
ghost use Rattle.run_plan.specs.declared.plan.Branch.{Branch};
ghost use Rattle.run_plan.specs.declared.plan.Kind.{Kind};
ghost use Rattle.exec_journal.specs.declared.reply.Reply.{Reply};
ghost use Rattle.run_plan.specs.declared.plan.PlanAction.{PlanAction};
ghost use Rattle.exec_journal.specs.declared.reply.Reply.TheVariants as reply;
ghost use Rattle.exec_journal.specs.Settled.{settled, all_settled, ready, wanted};
ghost use Rattle.run_plan.specs.Groups.{berths, berth_group, is_single, is_remote, has_cancellation};
ghost use Rattle.exec_journal.specs.History.{each};
ghost use Rattle.exec_journal.specs.Scripts.{seat_script};
ghost use Rattle.exec_journal.specs.Race.{Race};
ghost use Rattle.exec_journal.specs.Paired.{Paired};
ghost use Rattle.exec_journal.specs.Kept.{Kept, OrdersKept};
ghost use Rattle.exec_journal.specs.Accounted.{is_request_accounted, Accounted};
ghost use Rattle.exec_journal.specs.Clean.{clean_at, Clean};
ghost use Rattle.exec_journal.specs.Outcomes.{outcome_of, is_ok};
ghost use Rattle.run_plan.specs.Sound.{Sound};
ghost use Rattle.journal_laws.specs.Invariant.{EndsWith, claims_it, claimed, is_quiet_call, EachRequest, HasInputs, IsGoing, IsClaimable, IsWinner, LineFacts};
ghost use Rattle.journal_laws.specs.Steps.{EndExactly, is_open_attempt, is_left_on, is_known, given_up, StandsThere, KillsOnce, IsGathering, IsDone, IsGreeting, SameRequests, BeginsOne, IsUngranted, IsGrantedFiles, WantedFollows, BoundIsCarried, IsFreshSend, IsFreshLaunch, IsNumberedSend, KnownByNumber, IsPastAttempt, WantedUnlessGranted};
ghost use Rattle.exec_journal.specs.Legal.{Legal, after};
ghost use Rattle.exec_journal.specs.Lawful.{Lawful, Told, plain_reply};
ghost use Rattle.exec_journal.specs.Seated.{group_on, line_group, line_kind, may_be_asked};
ghost use Rattle.journal_laws.specs.IsLegal.{is_legal};
ghost use Rattle.journal_laws.specs.Finished.{Finished};
ghost use Rattle.journal_laws.specs.Paid.{seat_paid, seats_owe};
ghost use Rattle.exec_journal.specs.Facts.{begun, IsOfBerth, NameTheirLines, IsFresh, AttemptsInOrder, BeginInOrder, SameActions, SameStandings};

/// Lines are numbered in order, each line that an entry names was launched, and a lane names only lines of
/// its berth.
pub fn lines_are_numbered()
    ensures { (p : Plan) (j : List Entry) → Lawful p j → NameTheirLines j }
{}

/// No entry names a line that wasn't launched yet.
pub fn new_lines_are_fresh()
    ensures { (p : Plan) (j : List Entry) (l : ℕ) → Lawful p j → line_count j ≤ l → IsFresh j l }
{}

/// Attempts of a branch run from 1 to its latest, at most to the limit, and all but the latest
/// have ended.
pub fn attempts_run_in_order()
    ensures { (p : Plan) (j : List Entry) → Lawful p j → AttemptsInOrder p j }
{}

/// Each attempt is launched at most once and sent at most once, and begins only when the one
/// before it has ended.
pub fn attempts_begin_once()
    ensures { (p : Plan) (j : List Entry) → Lawful p j → BeginInOrder j }
{}

/// An attempt that has ended stays ended, with its cause.
pub fn ends_are_final()
    ensures { (e : Entry) (j : List Entry) (t : Attempt) (c : Cause) → end_of j t ≡ Some c
        → end_of (e ∷ j) t ≡ Some c }
{}

/// If no attempt ends and nothing is granted or committed, all stays as it was: what is settled,
/// ready and wanted.
pub fn standings_stay()
    ensures { (p : Plan) (j k : List Entry) → SameActions j k → SameStandings p j k }
{}

/// An action is granted once, and its files are committed once, by the lane that was granted
/// them.
pub fn branches_win_once()
    ensures { (p : Plan) (j : List Entry) → Lawful p j → Race j }
{}

/// Each consumed answer has a separate request.
pub fn answers_are_paired()
    ensures { (p : Plan) (j : List Entry) → Lawful p j → Paired p j }
{}

/// In each scheduling discipline, an order's conditions hold when it is given, and at most one line of a
/// berth is live.
pub fn orders_are_kept()
    ensures { (p : Plan) (j : List Entry) → Sound p → Lawful p j → OrdersKept p j }
{}

/// When a lane receives Stop and none has halted, all actions are settled and nothing is lost.
pub fn stops_settle_all()
    ensures settled { (p : Plan) (j : List Entry) (lane : ℕ) (c : Call)
        → Told p j lane c reply.Stop → halted j ≡ false → all_settled p j ≡ true }
    ensures later { (p : Plan) (j : List Entry) (lane : ℕ) → Lawful p j → stopped j lane ≡ true
        → halted j ≡ false → all_settled p j ≡ true }
    ensures accounted { (p : Plan) (j : List Entry) (lane : ℕ) (c : Call) → Sound p → Lawful p j
        → Told p j lane c reply.Stop → halted j ≡ false → Accounted p j }
{}

/// When a lane receives Stop, none has halted and every worker did its part, every action has success.
pub fn clean_runs_succeed()
    ensures { (p : Plan) (j : List Entry) (lane : ℕ) (c : Call) → Sound p → Lawful p j → Clean j
        → halted j ≡ false → Told p j lane c reply.Stop → (a : ℕ) (x : PlanAction)
        → slice_get p.actions a ≡ Some x → is_ok (outcome_of p j a) ≡ true }
{}

/// An entry that begins an attempt for the first time ends, grants and commits nothing. A Launch is of a new line, and
/// of a wanted branch's attempt that no entry has named yet. A Send is for a line of the lane's berth that hasn't ended
/// and has a place for it. It has the line's next number, and no entry has named its request yet.
pub fn begins_are_fresh()
    ensures begins { (p : Plan) (e : Entry) (j : List Entry) (t : Attempt) → Lawful p (e ∷ j)
        → begun_in e.reply ≡ Some t → begun j t ≡ false → BeginsOne j e t }
    ensures launches { (p : Plan) (e : Entry) (j : List Entry) (x : ℕ × Attempt)
        → Lawful p (e ∷ j) → 1 ≤ p.limit → launch_in e.reply ≡ Some x
        → IsFreshLaunch p j x.0 x.1 }
    ensures sends { (p : Plan) (e : Entry) (j : List Entry) (x : Request) → Lawful p (e ∷ j)
        → send_in e.reply ≡ Some x → IsFreshSend p j x.attempt x.line }
    ensures numbers { (p : Plan) (e : Entry) (j : List Entry) (x : Request) → Lawful p (e ∷ j)
        → 1 ≤ p.limit → send_in e.reply ≡ Some x → IsNumberedSend p j e.lane x }
{}

/// An attempt ends only by its own fault, or when its line has ended and it has no answer or its feed failed. Each of
/// these ends it, unless its action has a grant.
pub fn ends_are_told()
    ensures only { (p : Plan) (e : Entry) (j : List Entry) (t : Attempt) → Lawful p (e ∷ j)
        → ended (e ∷ j) t ≡ true → ended j t ≡ false → EndsWith j e t }
    ensures so { (p : Plan) (e : Entry) (j : List Entry) (t : Attempt) → Lawful p (e ∷ j)
        → EndsWith j e t → granted (e ∷ j) t.action ≡ false → ended (e ∷ j) t ≡ true }
{}

/// A Claim is of an attempt under way that was gathered and not claimed before. A grant is its action's first, and its
/// attempt never ends. A Committed is the first of its branch, which was granted files.
pub fn claims_are_due()
    ensures claims { (p : Plan) (e : Entry) (j : List Entry) (t : Attempt) → Lawful p (e ∷ j)
        → claims_it t e.call ≡ true → IsClaimable j t }
    ensures wins { (p : Plan) (j : List Entry) (a : ℕ) (x : Attempt × Found) → Lawful p j
        → grant_of j a ≡ Some x → IsWinner j a x.0 }
    ensures grants { (p : Plan) (e : Entry) (j : List Entry) (y : Attempt × Found)
        → Lawful p (e ∷ j) → granted_in e.call e.reply ≡ Some y → IsUngranted j y.0.action }
    ensures commits { (p : Plan) (e : Entry) (j : List Entry) (a : ℕ) (b : Branch)
        (how : CommitEnd) → Lawful p (e ∷ j) → e.call ≡ call.Committed a b how
        → IsGrantedFiles j a b }
{}

/// A branch that isn't wanted never becomes wanted again, and a branch that is bound to a line is carried by it. A
/// pending request is of an action of the plan, and is unwanted exactly when that action has a grant. The requests of a
/// line are numbered. Of all pending requests, exactly those of the attempt that an Answer or a Wrote is about have its
/// number on its line. A request has one Wrote. Once a line has ended, no attempt that it carries is pending.
pub fn branches_stand()
    ensures wanted { (p : Plan) (e : Entry) (j : List Entry) → Lawful p (e ∷ j)
        → WantedFollows p j e }
    ensures bound { (p : Plan) (j : List Entry) → Lawful p j → BoundIsCarried p j }
    ensures pending { (p : Plan) (j : List Entry) (l : ℕ) → Lawful p j → WantedUnlessGranted p j l }
    ensures lines { (p : Plan) (j : List Entry) (l w : ℕ) → Lawful p j → IsOfBerth j l w
        → LineFacts p j l }
    ensures answers { (p : Plan) (e : Entry) (j : List Entry) (l : ℕ) (x : Answer) (s : Attempt)
        → Lawful p (e ∷ j) → e.call ≡ call.Answer l x → consumed_in e.reply ≡ Some s
        → KnownByNumber j l x.number s }
    ensures writes { (p : Plan) (e : Entry) (j : List Entry) (l : ℕ) (n : ℤ) (how : Written)
        (x : Request) → Lawful p (e ∷ j) → e.call ≡ call.Wrote l n how
        → order_of j e.lane ≡ Some x → KnownByNumber j l n x.attempt }
    ensures first { (p : Plan) (j : List Entry) (lane : ℕ) (x : Request) → Lawful p j
        → order_of j lane ≡ Some x → wrote j x.attempt ≡ None }
    ensures past { (p : Plan) (j : List Entry) (s : Attempt) (l : ℕ) → Lawful p j
        → line_of j s ≡ Some l → has_ended j l ≡ true → IsPastAttempt j s }
{}

/// States exactly which attempts end with an entry:
///
/// - With a Launched that failed, a Wrote that reports unwritten or a refused Claim, it is the attempt that they name.
/// - With an Ended, it is each attempt that is left on the line.
/// - With a failed feed, it is the request's attempt, if its line has ended.
/// - With any other call, there is none.
///
/// If an action has a grant, none of its attempts ends.
pub fn ends_are_exact()
    ensures launched { (p : Plan) (e : Entry) (j : List Entry) (l m : ℕ) (how : Started)
        (s : Attempt) → Lawful p (e ∷ j) → e.call ≡ call.Launched l how → is_done how ≡ false
        → launch_of j l ≡ Some (m, s) → EndExactly j e (is_open_attempt j s) }
    ensures unwritten { (p : Plan) (e : Entry) (j : List Entry) (l : ℕ) (n : ℤ) (how : Written)
        (x : Request) → Lawful p (e ∷ j) → e.call ≡ call.Wrote l n how → is_unwritten how ≡ true
        → order_of j e.lane ≡ Some x → EndExactly j e (is_open_attempt j x.attempt) }
    ensures fed { (p : Plan) (e : Entry) (j : List Entry) (l : ℕ) (n : ℤ) (x : Request)
        → Lawful p (e ∷ j) → e.call ≡ call.Wrote l n write.FeedFault → order_of j e.lane ≡ Some x
        → line_of j x.attempt ≡ Some x.line
        → EndExactly j e (λ t. same_attempt x.attempt t && (has_ended j x.line && not
        (granted j x.attempt.action))) }
    ensures ended { (p : Plan) (e : Entry) (j : List Entry) (l : ℕ) (how : HowEnded)
        → Lawful p (e ∷ j) → e.call ≡ call.Ended l how → EndExactly j e (is_left_on j l) }
    ensures refused { (p : Plan) (e : Entry) (j : List Entry) (y : Attempt × Found)
        → Lawful p (e ∷ j) → refused_in e.call e.reply ≡ Some y
        → EndExactly j e (λ t. same_attempt y.0 t) }
    ensures written { (p : Plan) (e : Entry) (j : List Entry) (l : ℕ) (n : ℤ) (how : Written)
        (t : Attempt) → Lawful p (e ∷ j) → e.call ≡ call.Wrote l n how → (how ≡ write.Done)
        ⊎ (order_of j e.lane ≡ None) → ended (e ∷ j) t ≡ ended j t }
    ensures quiet { (p : Plan) (e : Entry) (j : List Entry) (t : Attempt) → Lawful p (e ∷ j)
        → is_quiet_call e.call ≡ true → ended (e ∷ j) t ≡ ended j t }
    ensures under_way { (p : Plan) (e : Entry) (j : List Entry) (t : Attempt) → Lawful p (e ∷ j)
        → ended (e ∷ j) t ≡ true → ended j t ≡ false → begun_in e.reply ≡ None → IsGoing j t }
{}

/// An attempt that was begun and hasn't ended is its branch's latest, within the limit, with its inputs made. It is
/// wanted unless its action has a grant. Such are the attempts that a Launched is about, or a Wrote unless its line has
/// ended without an answer to it. Such are also the pending ones, and those that were written, answered and not
/// claimed. An attempt that is gathered, or claimed while its action has no grant, is of an action that isn't settled.
/// A branch that was granted makes no Claim again.
pub fn attempts_stand()
    ensures going { (p : Plan) (j : List Entry) (t : Attempt) → Lawful p j → begun j t ≡ true
        → ended j t ≡ false → IsGoing j t }
    ensures limited { (p : Plan) (j : List Entry) (t : Attempt) → Lawful p j → 1 ≤ p.limit
        → IsGoing j t → t.number ≤ p.limit }
    ensures later { (p : Plan) (j : List Entry) (t : Attempt) → Lawful p j
        → attempt j t.action t.branch < t.number → ended j t ≡ false }
    ensures inputs { (p : Plan) (j : List Entry) (t : Attempt) → Lawful p j → begun j t ≡ true
        → HasInputs p j t }
    ensures wanted { (p : Plan) (j : List Entry) (t : Attempt) → Lawful p j → IsGoing j t
        → wanted p j t.action t.branch ≡ not (granted j t.action) }
    ensures gathers { (p : Plan) (e : Entry) (j : List Entry) (t : Attempt) → Lawful p (e ∷ j)
        → gather_in e.reply ≡ Some t → IsGathering p j t }
    ensures claims { (p : Plan) (e : Entry) (j : List Entry) (t : Attempt) → Lawful p (e ∷ j)
        → claims_it t e.call ≡ true → granted j t.action ≡ false → settled p j t.action ≡ false }
    ensures twice { (p : Plan) (e : Entry) (j : List Entry) (t : Attempt) → Lawful p (e ∷ j)
        → claims_it t e.call ≡ true → (x : Attempt × Found) → grant_of j t.action ≡ Some x
        → same_branch x.0.branch t.branch ≡ false }
    ensures launched { (p : Plan) (e : Entry) (j : List Entry) (l m : ℕ) (how : Started)
        (s : Attempt) → Lawful p (e ∷ j) → e.call ≡ call.Launched l how
        → launch_of j l ≡ Some (m, s) → IsGoing j s }
    ensures written { (p : Plan) (e : Entry) (j : List Entry) (l : ℕ) (n : ℤ) (how : Written)
        (x : Request) → Lawful p (e ∷ j) → e.call ≡ call.Wrote l n how
        → order_of j e.lane ≡ Some x → (has_ended j x.line ≡ false)
        ⊎ (answered j x.attempt ≡ true) → IsGoing j x.attempt }
    ensures left { (p : Plan) (e : Entry) (j : List Entry) (l : ℕ) (n : ℤ) (how : Written)
        (x : Request) → Lawful p (e ∷ j) → e.call ≡ call.Wrote l n how
        → order_of j e.lane ≡ Some x → has_ended j x.line ≡ true → answered j x.attempt ≡ false
        → granted j x.attempt.action ≡ false → ended j x.attempt ≡ true }
    ensures matched { (p : Plan) (j : List Entry) (t : Attempt) → Lawful p j → answered j t ≡ true
        → says_unwritten (wrote j t) ≡ false → says_feed_fault (wrote j t) ≡ false
        → claimed j t ≡ false → IsGoing j t }
    ensures pending { (p : Plan) (j : List Entry) (l : ℕ) → Lawful p j
        → EachRequest (λ y. IsGoing j y.attempt) (pending j l) }
    ensures again { (p : Plan) (e : Entry) (j : List Entry) (s : Attempt) → Lawful p (e ∷ j)
        → begun_in e.reply ≡ Some s → begun j s ≡ true → (a : ℕ) (b : Branch)
        → attempt (e ∷ j) a b ≡ attempt j a b }
{}

/// A settled action stays settled and has an outcome, a ready one stays ready, and each request is
/// accounted for at each moment.
pub fn standings_grow()
    ensures settled { (p : Plan) (e : Entry) (j : List Entry) (a : ℕ) → Lawful p (e ∷ j)
        → settled p j a ≡ true → settled p (e ∷ j) a ≡ true }
    ensures all { (p : Plan) (e : Entry) (j : List Entry) → Lawful p (e ∷ j)
        → all_settled p j ≡ true → all_settled p (e ∷ j) ≡ true }
    ensures ready { (p : Plan) (e : Entry) (j : List Entry) (x : PlanAction) → Lawful p (e ∷ j)
        → ready p j x ≡ true → ready p (e ∷ j) x ≡ true }
    ensures known { (p : Plan) (j : List Entry) (a : ℕ) (x : PlanAction)
        → slice_get p.actions a ≡ Some x → settled p j a ≡ true
        → is_known (outcome_of p j a) ≡ true }
    ensures requests { (p : Plan) (j : List Entry) → Lawful p j
        → list_all (is_request_accounted j) (each (λ _ e. send_in e.reply) j) ≡ true }
{}

/// A line is killed once and ends once. A line that was given up has nothing left to do, if no lane has halted.
pub fn lines_end_once()
    ensures kills { (p : Plan) (e : Entry) (j : List Entry) (l : ℕ) → Lawful p (e ∷ j)
        → orders_kill l e.reply ≡ true → KillsOnce j e l }
    ensures sends { (p : Plan) (e : Entry) (j : List Entry) (x : Request) → Lawful p (e ∷ j)
        → send_in e.reply ≡ Some x → kill_ordered j x.line ≡ false }
    ensures asks { (p : Plan) (e : Entry) (j : List Entry) (l : ℕ) → Lawful p (e ∷ j)
        → e.call ≡ call.Ask → IsOfBerth j l (e.lane / 2) → kill_ordered j l ≡ true
        → was_killed j l ≡ true }
    ensures killed { (p : Plan) (j : List Entry) (l : ℕ) → Lawful p j → was_killed j l ≡ true
        → kill_ordered j l ≡ true }
    ensures taken { (p : Plan) (j : List Entry) (l : ℕ) → Lawful p j → has_ended j l ≡ true
        → was_taken j l ≡ true }
    ensures once { (p : Plan) (e : Entry) (j : List Entry) (l : ℕ) (how : HowEnded)
        → Lawful p (e ∷ j) → e.call ≡ call.Ended l how → has_ended j l ≡ false }
    ensures answers { (p : Plan) (e : Entry) (j : List Entry) (l : ℕ) (x : Answer)
        → Lawful p (e ∷ j) → e.call ≡ call.Answer l x → has_ended j l ≡ false }
    ensures started { (p : Plan) (j : List Entry) (l : ℕ) → Lawful p j → was_taken j l ≡ true
        → started j l ≡ true }
    ensures whole { (p : Plan) (j : List Entry) (l : ℕ) → Lawful p j → started j l ≡ true
        → failed j l ≡ false }
    ensures done { (p : Plan) (j : List Entry) (l : ℕ) → Lawful p j → halted j ≡ false
        → given_up j l ≡ true → IsDone p j l }
{}

/// There are at most as many lines as the two branches of all actions have attempts. A Single line has at most one
/// pending request. The request of an Answer or a Wrote is among the requests of its line. An answered request is no
/// longer pending. An answer that reports cancelled is never matched.
pub fn requests_have_places()
    ensures lines { (p : Plan) (j : List Entry) (l : ℕ) → Lawful p j → 1 ≤ p.limit
        → l < line_count j → l < 2 * length p.actions * p.limit }
    ensures one { (p : Plan) (j : List Entry) (l w : ℕ) → Lawful p j → IsOfBerth j l w
        → is_single (line_kind p j l) ≡ true → length (pending j l) ≤ 1 }
    ensures writes { (p : Plan) (j : List Entry) (lane : ℕ) (x : Request) → Lawful p j
        → order_of j lane ≡ Some x → StandsThere j x.line x }
    ensures answers { (p : Plan) (e : Entry) (j : List Entry) (l : ℕ) (x : Answer) (s : Attempt)
        → Lawful p (e ∷ j) → e.call ≡ call.Answer l x → consumed_in e.reply ≡ Some s
        → (y : Request) × (y.attempt ≡ s) × (is_pending j y ≡ true) × StandsThere j l y }
    ensures past { (j : List Entry) (s : Attempt) → answered j s ≡ true → IsPastAttempt j s }
    ensures cancelled { (p : Plan) (e : Entry) (j : List Entry) (l : ℕ) (x : Answer)
        (t : Attempt) → Lawful p (e ∷ j) → e.call ≡ call.Answer l x → matched_in e.reply ≡ Some t
        → x.cancelled ≡ false }
{}

/// A greeting is an executor's first answer. It changes nothing of lines, requests and attempts,
/// its line stays greeted, and an executor's line gets a Cancel only once it has greeted.
pub fn greetings_come_first()
    ensures is { (p : Plan) (e : Entry) (j : List Entry) (l : ℕ) (x : Answer) → Lawful p (e ∷ j)
        → e.call ≡ call.Answer l x → e.reply ≡ reply.Greeted → IsGreeting p j l x }
    ensures so { (p : Plan) (e : Entry) (j : List Entry) (l : ℕ) (x : Answer) → Lawful p (e ∷ j)
        → e.call ≡ call.Answer l x → IsGreeting p j l x → e.reply ≡ reply.Greeted }
    ensures keeps { (p : Plan) (e : Entry) (j : List Entry) → Lawful p (e ∷ j)
        → e.reply ≡ reply.Greeted → SameRequests p j (e ∷ j) }
    ensures clean { (j : List Entry) (l : ℕ) (x : Answer)
        → clean_at j (call.Answer l x) reply.Greeted ≡ true }
    ensures stays { (e : Entry) (j : List Entry) (l : ℕ) → has_greeted j l ≡ true
        → has_greeted (e ∷ j) l ≡ true }
    ensures spoken { (j : List Entry) (l : ℕ) → has_greeted j l ≡ true → has_spoken j l ≡ true }
    ensures remote { (p : Plan) (j : List Entry) (l : ℕ) → Lawful p j
        → has_greeted j l ≡ true → is_remote (line_kind p j l) ≡ true }
    ensures may { (p : Plan) (j : List Entry) (l : ℕ) → Lawful p j
        → may_be_asked p j l ≡ (has_cancellation p (line_group p j l) || has_greeted j l) }
    ensures cancels { (p : Plan) (e : Entry) (j : List Entry) (l : ℕ) (n : ℤ) → Sound p
        → Lawful p (e ∷ j) → e.reply ≡ reply.Cancel l n
        → is_remote (line_kind p j l) ≡ true → has_greeted j l ≡ true }
{}

/// `is_legal` decides which journals are legal.
pub fn legal_is_decided()
    ensures { (p : Plan) (j : List Entry) → (is_legal p j ≡ true) ↔ Legal p j }
{}

/// A run is finished when a lane receives Stop and none has halted: all actions are settled, each has an
/// outcome, and nothing is lost. It stays finished.
pub fn stops_finish_runs()
    ensures stops { (p : Plan) (j : List Entry) (lane : ℕ) (c : Call) → Sound p → Lawful p j
        → Told p j lane c reply.Stop → halted j ≡ false → Finished p j }
    ensures later { (p : Plan) (j : List Entry) (lane : ℕ) → Sound p → Lawful p j
        → stopped j lane ≡ true → halted j ≡ false → Finished p j }
    ensures stays { (p : Plan) (e : Entry) (j : List Entry) → Sound p → Lawful p (e ∷ j)
        → Finished p j → Finished p (e ∷ j) }
{}

/// At first each lane of `seats` berths owes one call, its Halt. A paid call is in its lane's script, is
/// answered Noted, and stays paid for after entries of other lanes. It reduces the number of owed calls by
/// one, and any other call raises it by at most one.
pub fn paid_calls_are_noted()
    ensures first { (seats : ℕ) → seats_owe seats [] ≡ 2 * seats }
    ensures allowed { (seats : ℕ) (kinds : ℕ → Kind) (p : Plan) (j : List Entry) (lane : ℕ)
        (c : Call) → Lawful p j → seat_paid seats j lane c ≡ true
        → seat_script seats kinds p j lane c ≡ true }
    ensures noted { (p : Plan) (seats : ℕ) (j : List Entry) (lane : ℕ) (c : Call)
        → seat_paid seats j lane c ≡ true → plain_reply p j lane c ≡ reply.Noted }
    ensures stays { (seats : ℕ) (e : Entry) (j : List Entry) (lane : ℕ) (c : Call)
        → (e.lane == lane) ≡ false → seat_paid seats (e ∷ j) lane c ≡ seat_paid seats j lane c }
    ensures less { (seats : ℕ) (j : List Entry) (lane : ℕ) (c : Call)
        → seat_paid seats j lane c ≡ true
        → seats_owe seats (after j lane c reply.Noted) + 1 ≡ seats_owe seats j }
    ensures more { (seats : ℕ) (j : List Entry) (lane : ℕ) (c : Call) (x : Reply)
        → seats_owe seats (after j lane c x) ≤ seats_owe seats j + 1 }
{}

/// If each group has its own berths, a legal journal is lawful. Each line then runs the group of its berth, and the
/// conditions of orders hold there too.
pub fn own_berths_are_lawful()
    ensures lawful { (p : Plan) (j : List Entry) → Legal p j → Lawful p j }
    ensures seated { (p : Plan) (j : List Entry) (l w : ℕ) → Legal p j → IsOfBerth j l w
        → group_on p j l ≡ berth_group p w }
    ensures within { (p : Plan) (j : List Entry) (l w : ℕ) → Legal p j → IsOfBerth j l w
        → w < berths p }
    ensures kept { (p : Plan) (j : List Entry) → Sound p → Legal p j → Kept p j }
{}
