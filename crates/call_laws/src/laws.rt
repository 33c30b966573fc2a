//! Laws for the moment of a call, about the lines, requests and attempts that it names. The
//! functions do nothing. Each one is a law, for a core that answers such calls.
ghost use Rattle.std.specs.Prelude.{◌≡◌, ◌⊎◌, ◌+◌, ◌*◌, ◌/◌, ◌<◌, ◌≤◌, ◌==◌, ◌&&◌, ◌||◌, not, ℕ, ℤ, true, false, List, ◌∷◌, Some, None, is_some, length, filter, option_map};
ghost use Rattle.std.specs.List.{list_any};
ghost use Rattle.std.specs.Ordering.{int_eq};
ghost use Rattle.run_plan.specs.declared.plan.Branch.{Branch};
ghost use Rattle.run_plan.specs.declared.plan.Plan.{Plan};
ghost use Rattle.run_plan.specs.Groups.{is_single};
ghost use Rattle.run_plan.specs.Sound.{Sound};
ghost use Rattle.exec_journal.specs.declared.attempt.Attempt.{Attempt};
ghost use Rattle.exec_journal.specs.declared.call.Answer.{Answer};
ghost use Rattle.exec_journal.specs.declared.call.Call.TheVariants as call;
ghost use Rattle.exec_journal.specs.declared.call.Call.{Call};
ghost use Rattle.exec_journal.specs.declared.call.CommitEnd.{CommitEnd};
ghost use Rattle.exec_journal.specs.declared.call.Found.TheVariants as found;
ghost use Rattle.exec_journal.specs.declared.call.Found.{Found};
ghost use Rattle.exec_journal.specs.declared.call.HowEnded.{HowEnded};
ghost use Rattle.exec_journal.specs.declared.call.Started.TheVariants as start;
ghost use Rattle.exec_journal.specs.declared.call.Started.{Started};
ghost use Rattle.exec_journal.specs.declared.call.Written.TheVariants as write;
ghost use Rattle.exec_journal.specs.declared.call.Written.{Written};
ghost use Rattle.exec_journal.specs.Entry.{Entry};
ghost use Rattle.exec_journal.specs.declared.reply.Reply.TheVariants as reply;
ghost use Rattle.exec_journal.specs.Attempts.{ended, fault_at, line_of};
ghost use Rattle.exec_journal.specs.Entries.{Request, gather_in, launch_of_entry, is_done, is_unwritten, launch_in, matched_in, refused_in, same_attempt, send_in};
ghost use Rattle.exec_journal.specs.Facts.{IsOfBerth, SameActions, begun, call_line};
ghost use Rattle.exec_journal.specs.Lawful.{in_script, Lawful, Told};
ghost use Rattle.exec_journal.specs.Seated.{group_on, line_kind, may_be_asked};
ghost use Rattle.exec_journal.specs.Rules.{gathered, gathers_next, is_other, oldest};
ghost use Rattle.exec_journal.specs.Settled.{bound};
ghost use Rattle.exec_journal.specs.Words.{answered, broke, commit_of, failed, grant_of, granted, has_cancel, has_ended, is_pending, kill_ordered, last_line, last_work, launch_of, line_count, live, order_of, pending, says_feed_fault, sends, started, was_killed, was_sent, was_taken, wrote};
ghost use Rattle.journal_laws.specs.Invariant.{claimed, EachRequest, IsGoing, NumberedAs, older};
ghost use Rattle.journal_laws.specs.Steps.{EndExactly, IsUngranted, KnownByNumber};
ghost use Rattle.call_laws.specs.Matches.{gather_of, is_spent, recent, waits_yet};
ghost use Rattle.call_laws.specs.Moments.{AreApart, BranchOf, EndsJust, IsClean, IsLaunchOf, IsOwed, IsRead, IsSeated, IsSendOf, fed_on, gathers_attempt, kills_line, launches_line, lost_with, sends_attempt, stands_on, wins_files_of};

/// A call in its script that names a line names the last of its lane's berth.
pub fn calls_name_last_lines()
    ensures { (p : Plan) (j : List Entry) (lane l : ℕ) (c : Call) → Lawful p j
        → in_script p j lane c ≡ true → call_line c ≡ Some l → last_line j (lane / 2) ≡ Some l }
{}

/// A berth's live line is its last. So is a line to which a branch is bound. The berth of such a
/// line belongs to the plan, and the branch to the berth's group.
pub fn lines_here_are_last()
    ensures live { (p : Plan) (j : List Entry) (l w : ℕ) → Lawful p j → IsOfBerth j l w
        → live j l ≡ true → last_line j w ≡ Some l }
    ensures bound { (p : Plan) (j : List Entry) (l w : ℕ) (t : Attempt) → Lawful p j
        → IsOfBerth j l w → bound p j l ≡ Some t → last_line j w ≡ Some l }
    ensures seat { (p : Plan) (j : List Entry) (l : ℕ) (t : Attempt) → Lawful p j
        → bound p j l ≡ Some t → IsSeated p j l }
    ensures group { (p : Plan) (j : List Entry) (l : ℕ) (t : Attempt) → Lawful p j
        → bound p j l ≡ Some t → BranchOf p t (group_on p j l) }
{}

/// If a lane may Ask, each line of its berth was reported: it started, or it failed to launch.
pub fn asking_lanes_have_reported()
    ensures lines { (p : Plan) (j : List Entry) (lane l : ℕ) → Lawful p j
        → in_script p j lane call.Ask ≡ true → IsOfBerth j l (lane / 2)
        → (started j l || failed j l) ≡ true }
    ensures here { (p : Plan) (j : List Entry) (lane l : ℕ) → Lawful p j
        → in_script p j lane call.Ask ≡ true → last_line j (lane / 2) ≡ Some l
        → failed j l ≡ not (started j l) }
{}

/// A pending request is known by its line and its number, as the berth's kind gives it. On an
/// unbroken line, its Wrote has no fault, and no Gather of it was ordered. On a line that takes no
/// cancels, no Cancel of it was ordered.
///
/// Only the newest request of a line can have FeedFault. The request of a Wrote was answered, if it
/// isn't pending on a line that hasn't ended.
pub fn requests_are_known()
    ensures known { (p : Plan) (j : List Entry) (l w : ℕ) → Lawful p j → IsOfBerth j l w
        → EachRequest (λ x. KnownByNumber j l x.number x.attempt) (pending j l) }
    ensures numbers { (p : Plan) (j : List Entry) (l w : ℕ) → Lawful p j → IsOfBerth j l w
        → NumberedAs (is_single (line_kind p j l)) (sends j l) }
    ensures clean { (p : Plan) (j : List Entry) (l : ℕ) → Lawful p j → broke j l ≡ false
        → EachRequest (λ x. IsClean j x.attempt) (pending j l) }
    ensures cancels { (p : Plan) (j : List Entry) (l : ℕ) → Lawful p j
        → may_be_asked p j l ≡ false
        → EachRequest (λ x. has_cancel j x ≡ false) (pending j l) }
    ensures fed { (p : Plan) (j : List Entry) (l : ℕ) → Lawful p j
        → EachRequest (λ x. says_feed_fault (wrote j x.attempt) ≡ false) (older (sends j l)) }
    ensures past { (p : Plan) (j : List Entry) (lane : ℕ) (x : Request) → Lawful p j
        → order_of j lane ≡ Some x → has_ended j x.line ≡ false → is_pending j x ≡ false
        → answered j x.attempt ≡ true }
{}

/// A Claim finds neither a grant nor a Committed of its action, if the other branch has no grant.
pub fn claims_find_open_actions()
    ensures { (p : Plan) (j : List Entry) (lane a : ℕ) (b : Branch) (t : ℕ) (x : Found)
        → Lawful p j → in_script p j lane (call.Claim a b t x) ≡ true
        → is_other b (grant_of j a) ≡ false → IsUngranted j a }
{}

/// Each action that an order, a Claim or a Committed names is in the plan.
pub fn named_actions_are_planned()
    ensures launches { (p : Plan) (e : Entry) (j : List Entry) (l : ℕ) (t : Attempt)
        → Lawful p (e ∷ j) → launch_in e.reply ≡ Some (l, t) → t.action < length p.actions }
    ensures sends { (p : Plan) (e : Entry) (j : List Entry) (x : Request)
        → Lawful p (e ∷ j) → send_in e.reply ≡ Some x → x.attempt.action < length p.actions }
    ensures gathers { (p : Plan) (e : Entry) (j : List Entry) (t : Attempt)
        → Lawful p (e ∷ j) → gather_in e.reply ≡ Some t → t.action < length p.actions }
    ensures claims { (p : Plan) (j : List Entry) (lane a : ℕ) (b : Branch) (t : ℕ) (x : Found)
        → Lawful p j → in_script p j lane (call.Claim a b t x) ≡ true → a < length p.actions }
    ensures commits { (p : Plan) (j : List Entry) (lane a : ℕ) (b : Branch) (how : CommitEnd)
        → Lawful p j → in_script p j lane (call.Committed a b how) ≡ true → a < length p.actions }
{}

/// A Send has room on its line. It begins the next attempt of its branch, or sends the latest,
/// which is bound to that line. A Launch has room for its line.
pub fn orders_have_room()
    ensures sends { (p : Plan) (j : List Entry) (lane l : ℕ) (n : ℤ) (t : Attempt) → Sound p
        → Lawful p j → in_script p j lane call.Ask ≡ true
        → Told p j lane call.Ask (reply.Send l n t.action t.branch t.number)
        → IsSendOf p j l t }
    ensures launches { (p : Plan) (j : List Entry) (lane l : ℕ) (t : Attempt) → Sound p
        → Lawful p j → in_script p j lane call.Ask ≡ true
        → Told p j lane call.Ask (reply.Launch l t.action t.branch t.number)
        → IsLaunchOf p j t }
{}

/// A Gather is ordered for the oldest match since the berth's last Send that still waits. Those
/// matches and the pending requests of the berth's last line are at most eight. A match waits when
/// it comes.
pub fn recent_matches_suffice()
    ensures gathers { (p : Plan) (j : List Entry) (lane : ℕ) → Lawful p j
        → in_script p j lane call.Ask ≡ true → gathers_next j (lane / 2)
        ≡ option_map gather_of (oldest (filter (waits_yet j) (recent j (lane / 2)))) }
    ensures room { (p : Plan) (j : List Entry) (w l : ℕ) → Sound p → Lawful p j
        → last_line j w ≡ Some l
        → length (recent j w) + length (pending j l) ≤ 8 }
    ensures waits { (p : Plan) (e : Entry) (j : List Entry) (l : ℕ) (x : Answer) (t : Attempt)
        → Lawful p (e ∷ j) → e.call ≡ call.Answer l x → matched_in e.reply ≡ Some t
        → is_spent j t ≡ false }
{}

/// With a fault, only one attempt can end. With a failed Launched, it is the attempt that is bound
/// only to that line. With a Wrote that reports unwritten, or with a failed feed after its line has
/// ended, it is the attempt of the request. With a refused Claim, it is the attempt that the Claim
/// names.
pub fn faults_end_one()
    ensures launched { (p : Plan) (e : Entry) (j : List Entry) (l m : ℕ) (how : Started)
        (t : Attempt) → Sound p → Lawful p (e ∷ j) → e.call ≡ call.Launched l how
        → is_done how ≡ false → launch_of j l ≡ Some (m, t) → EndsJust p j e t }
    ensures unbound { (p : Plan) (e : Entry) (j : List Entry) (l : ℕ) (how : Started)
        → Lawful p (e ∷ j) → e.call ≡ call.Launched l how → is_done how ≡ false
        → (m : ℕ) (t : Attempt) → bound p j m ≡ Some t → (l == m) ≡ is_some (fault_at t j e) }
    ensures written { (p : Plan) (e : Entry) (j : List Entry) (l : ℕ) (n : ℤ) (how : Written)
        (x : Request) → Sound p → Lawful p (e ∷ j) → e.call ≡ call.Wrote l n how
        → is_unwritten how ≡ true → order_of j e.lane ≡ Some x → EndsJust p j e x.attempt }
    ensures fed { (p : Plan) (e : Entry) (j : List Entry) (l : ℕ) (n : ℤ) (x : Request) → Sound p
        → Lawful p (e ∷ j) → e.call ≡ call.Wrote l n write.FeedFault → order_of j e.lane ≡ Some x
        → has_ended j x.line ≡ true → EndsJust p j e x.attempt }
    ensures claimed { (p : Plan) (e : Entry) (j : List Entry) (y : Attempt × Found) → Sound p
        → Lawful p (e ∷ j) → refused_in e.call e.reply ≡ Some y → EndsJust p j e y.0 }
{}

/// A line's end ends exactly the attempts that it carries, unless their action has a grant. These are
/// the attempts that are pending there, those for which its feed failed, and the one bound to it.
/// Their list has each once, and each was under way. A line carries at most one attempt of an action.
/// An attempt that was launched on the line and never sent is bound to it when it ends.
pub fn lines_end_these()
    ensures these { (p : Plan) (e : Entry) (j : List Entry) (l : ℕ) (how : HowEnded)
        → Lawful p (e ∷ j) → e.call ≡ call.Ended l how
        → EndExactly j e (λ t. stands_on p j l t && not (granted j t.action)) }
    ensures listed { (p : Plan) (e : Entry) (j : List Entry) (l : ℕ) (how : HowEnded)
        → Lawful p (e ∷ j) → e.call ≡ call.Ended l how
        → EndExactly j e (λ t. list_any (same_attempt t) (lost_with p j l)) }
    ensures once { (p : Plan) (j : List Entry) (l : ℕ) → Lawful p j → AreApart (lost_with p j l) }
    ensures going { (p : Plan) (j : List Entry) (l : ℕ) (t : Attempt) → Lawful p j
        → has_ended j l ≡ false → list_any (same_attempt t) (lost_with p j l) ≡ true
        → IsGoing j t }
    ensures one { (p : Plan) (j : List Entry) (l m : ℕ) (s t v : Attempt) → Sound p → Lawful p j
        → launch_of j l ≡ Some (m, s) → stands_on p j l t ≡ true → stands_on p j l v ≡ true
        → ended j t ≡ false → ended j v ≡ false → t.action ≡ v.action → t ≡ v }
    ensures fed { (p : Plan) (e : Entry) (j : List Entry) (l : ℕ) (n : ℤ) (x : Request)
        → Lawful p (e ∷ j) → e.call ≡ call.Wrote l n write.FeedFault → order_of j e.lane ≡ Some x
        → fed_on (e ∷ j) l ≡ Some x.attempt }
    ensures unsent { (p : Plan) (e : Entry) (j : List Entry) (l : ℕ) (how : HowEnded)
        (t : Attempt) → Lawful p (e ∷ j) → e.call ≡ call.Ended l how → line_of j t ≡ Some l
        → was_sent j t ≡ false → granted j t.action ≡ false → bound p j l ≡ Some t }
{}

/// These entries end, grant and commit nothing: a Launched or a Wrote with Done, a Wrote of a
/// Cancel, and a lost Claim. The same holds for a Wrote whose feed failed on a line that hasn't
/// ended.
pub fn reports_change_nothing()
    ensures started { (p : Plan) (e : Entry) (j : List Entry) (l : ℕ) → Lawful p (e ∷ j)
        → e.call ≡ call.Launched l start.Done → SameActions j (e ∷ j) }
    ensures written { (p : Plan) (e : Entry) (j : List Entry) (l : ℕ) (n : ℤ) (how : Written)
        → Lawful p (e ∷ j) → e.call ≡ call.Wrote l n how → (how ≡ write.Done)
        ⊎ (order_of j e.lane ≡ None) → SameActions j (e ∷ j) }
    ensures fed { (p : Plan) (e : Entry) (j : List Entry) (l : ℕ) (n : ℤ) (x : Request)
        → Lawful p (e ∷ j) → e.call ≡ call.Wrote l n write.FeedFault → order_of j e.lane ≡ Some x
        → has_ended j x.line ≡ false → SameActions j (e ∷ j) }
    ensures lost { (p : Plan) (e : Entry) (j : List Entry) (a : ℕ) (b : Branch) (t : ℕ) (x : Found)
        → Lawful p (e ∷ j) → e.call ≡ call.Claim a b t x → e.reply ≡ reply.Lost
        → SameActions j (e ∷ j) }
{}

/// Every order is done, or its lane still owes the report. A Launch is followed by its Launched, a
/// Send by its Wrote, a Gather by its Claim and a Kill by its Killed. A grant of files is followed
/// by its Committed. A line that was given to its tap lane has ended, or is still read.
pub fn orders_are_met()
    ensures launches { (p : Plan) (j : List Entry) (l m : ℕ) (t : Attempt) → Lawful p j
        → launch_of j l ≡ Some (m, t) → ((started j l || failed j l) ≡ true)
        ⊎ IsOwed j (launches_line l) }
    ensures sends { (p : Plan) (j : List Entry) (t : Attempt) → Lawful p j
        → was_sent j t ≡ true → (is_some (wrote j t) ≡ true) ⊎ IsOwed j (sends_attempt t) }
    ensures gathers { (p : Plan) (j : List Entry) (t : Attempt) → Lawful p j
        → gathered j t ≡ true → (claimed j t ≡ true) ⊎ IsOwed j (gathers_attempt t) }
    ensures kills { (p : Plan) (j : List Entry) (l : ℕ) → Lawful p j
        → kill_ordered j l ≡ true → (was_killed j l ≡ true) ⊎ IsOwed j (kills_line l) }
    ensures grants { (p : Plan) (j : List Entry) (a : ℕ) (t : Attempt) (files : List (List ℕ))
        → Lawful p j → grant_of j a ≡ Some (t, found.Files files)
        → (is_some (commit_of j a t.branch) ≡ true) ⊎ IsOwed j (wins_files_of a t.branch) }
    ensures reads { (p : Plan) (j : List Entry) (l : ℕ) → Lawful p j
        → was_taken j l ≡ true → (has_ended j l ≡ true) ⊎ IsRead j l }
{}

/// A Launched answers its line's Launch, and a Wrote that reports unwritten answers a Send. The order
/// is the newest work of the report's lane. While a Wrote is owed, no feed of its line has failed.
pub fn reports_answer_orders()
    ensures launched { (p : Plan) (j : List Entry) (lane l m : ℕ) (how : Started) (t : Attempt)
        → Lawful p j → in_script p j lane (call.Launched l how) ≡ true
        → launch_of j l ≡ Some (m, t) → launch_of_entry (last_work j lane) ≡ Some t }
    ensures unwritten { (p : Plan) (j : List Entry) (lane l : ℕ) (n : ℤ) (how : Written)
        → in_script p j lane (call.Wrote l n how) ≡ true → is_unwritten how ≡ true
        → (x : Request) × (order_of j lane ≡ Some x) × (x.line ≡ l)
        × (int_eq x.number n ≡ true) }
    ensures unfed { (p : Plan) (j : List Entry) (lane : ℕ) (x : Request) → Lawful p j
        → order_of j lane ≡ Some x → fed_on j x.line ≡ None }
{}

/// There are no more lines, and no more requests on a line, than the two branches of all actions have
/// attempts. Every attempt that has ended was begun, and every answered request was sent. The requests of a
/// berth's last line are of the berth's group.
pub fn journals_are_bounded()
    ensures lines { (p : Plan) (j : List Entry) → Sound p → Lawful p j
        → line_count j ≤ 2 * length p.actions * p.limit }
    ensures sends { (p : Plan) (j : List Entry) (l : ℕ) → Sound p → Lawful p j
        → length (sends j l) ≤ 2 * length p.actions * p.limit }
    ensures begun { (p : Plan) (j : List Entry) (t : Attempt) → Lawful p j
        → begun j t ≡ false → ended j t ≡ false }
    ensures sent { (p : Plan) (j : List Entry) (t : Attempt) → Lawful p j
        → was_sent j t ≡ false → answered j t ≡ false }
    ensures group { (p : Plan) (j : List Entry) (l w : ℕ) → Lawful p j → IsOfBerth j l w
        → EachRequest (λ x. BranchOf p x.attempt (group_on p j l)) (sends j l) }
{}
