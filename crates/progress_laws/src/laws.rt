//! What holds where every lane of a run rests, and how few entries its journal has. The functions do
//! nothing: each is a law.
ghost use Rattle.std.specs.Prelude.{◌≡◌, ◌⊎◌, ◌≤◌, ◌/◌, ◌*◌, ◌+◌, ℕ, true, false, List, [], Some, None, slice_get};
ghost use Rattle.run_plan.specs.declared.plan.Branch.{Branch};
ghost use Rattle.run_plan.specs.declared.plan.Branch.TheVariants.{Local};
ghost use Rattle.run_plan.specs.declared.plan.Plan.{Plan};
ghost use Rattle.run_plan.specs.declared.plan.PlanAction.{PlanAction};
ghost use Rattle.run_plan.specs.Groups.{berths, group_of};
ghost use Rattle.run_plan.specs.Sound.{Sound};
ghost use Rattle.exec_journal.specs.declared.attempt.Attempt.{Attempt};
ghost use Rattle.exec_journal.specs.declared.call.Call.TheVariants as call;
ghost use Rattle.exec_journal.specs.declared.call.HowEnded.TheVariants as end;
ghost use Rattle.exec_journal.specs.declared.reply.Reply.TheVariants as reply;
ghost use Rattle.exec_journal.specs.Entry.{Entry};
ghost use Rattle.exec_journal.specs.Attempts.{ended};
ghost use Rattle.exec_journal.specs.Lawful.{Lawful, in_script};
ghost use Rattle.exec_journal.specs.Rules.{is_over, is_vacant, kills_broken, take_reply};
ghost use Rattle.exec_journal.specs.Settled.{all_settled, queued};
ghost use Rattle.exec_journal.specs.Words.{granted, halted, last_line, live, pending};
ghost use Rattle.journal_laws.specs.Invariant.{IsGoing, claimed};
ghost use Rattle.core_contract.specs.Disciplines.{LegalBy, own_discipline};
ghost use Rattle.placed_rules.specs.declared.pools.SharedPlan.{SharedPlan};
ghost use Rattle.placed_rules.specs.Pools.{seats};
ghost use Rattle.placed_rules.specs.Placed.{shared_discipline};
ghost use Rattle.placed_rules.specs.Placed.{delayed_discipline};
ghost use Rattle.placed_rules.specs.Own.{delayed_seats};
ghost use Rattle.placed_rules.specs.Due.{has_waited};
ghost use Rattle.progress_laws.specs.Awaits.{Awaits, AwaitsEnd, Owes};
ghost use Rattle.progress_laws.specs.Few.{AllWithin, CallsAreFew, CallsAreFewButTicks, DelayedCallsAreFew};
ghost use Rattle.progress_laws.specs.Moments.{NeverStuck};
ghost use Rattle.progress_laws.specs.Quiet.{AllQuiet, IsFree, NoneOwes};
ghost use Rattle.progress_laws.specs.Rests.{AllLeft, AllRest};
ghost use Rattle.run_values.specs.Runnable.{EachHasBerth};
ghost use Rattle.placed_rules.specs.Runnable.{EachHasPool};
ghost use Rattle.progress_laws.specs.Unwanted.{UnwantedAreAsked};

/// In any lawful journal, if both lanes of a berth rest, the process of its last line owes
/// something, or that line is free: it makes the berth vacant, or it is live and nothing is pending
/// there.
pub fn resting_berths_are_free()
    ensures { (p : Plan) (j : List Entry) (proxy tap l : ℕ) → Lawful p j
        → proxy / 2 ≡ tap / 2 → last_line j (proxy / 2) ≡ Some l
        → in_script p j proxy call.Ask ≡ true → kills_broken j (Some l) ≡ None
        → (take_reply p j (Some l) ≡ reply.Idle)
        ⊎ ((m : ℕ) × (in_script p j tap (call.Ended m end.End) ≡ true))
        → Awaits j l ⊎ IsFree j l }
{}

/// If an attempt was claimed, it has ended or its action has a grant.
pub fn claims_close_attempts()
    ensures { (p : Plan) (j : List Entry) (t : Attempt) → Lawful p j → claimed j t ≡ true
        → (granted j t.action ≡ true) ⊎ (ended j t ≡ true) }
{}

/// If every berth is quiet, an attempt under way belongs to an action that has a grant.
pub fn resting_attempts_are_granted()
    ensures { (p : Plan) (j : List Entry) (t : Attempt) → Lawful p j → AllQuiet p j → IsGoing j t
        → granted j t.action ≡ true }
{}

/// If every berth is quiet, no lane owes a call and some action isn't settled, some branch is
/// queued.
pub fn resting_runs_have_work()
    ensures { (p : Plan) (j : List Entry) → Sound p → Lawful p j → AllQuiet p j → NoneOwes j
        → all_settled p j ≡ false → (a : ℕ) × (x : PlanAction) × (b : Branch) × (g : ℕ)
        × (slice_get p.actions a ≡ Some x) × (group_of x b ≡ Some g)
        × (queued p j a b x ≡ true) }
{}

/// A run whose groups have berths of their own never waits for itself: if every lane rests and none
/// has halted, all actions are settled, or some process owes an answer or its end.
pub fn own_berths_never_get_stuck()
    ensures { (p : Plan) (j : List Entry) → Sound p → EachHasBerth p
        → LegalBy (own_discipline p) j → halted j ≡ false
        → AllRest (own_discipline p) (2 * berths p) j
        → (all_settled p j ≡ true) ⊎ ((l : ℕ) × Awaits j l) }
{}

/// Nor does a run in which local branches wait for Ticks, which its last lane makes: the remote
/// branch of the same action goes on in the meantime.
pub fn delays_never_get_stuck()
    ensures { (p : Plan) (n : ℕ) (j : List Entry) → Sound p → EachHasBerth p
        → LegalBy (delayed_discipline p n) j → halted j ≡ false
        → AllRest (delayed_discipline p n) (2 * berths p + 1) j
        → (all_settled p j ≡ true) ⊎ ((l : ℕ) × Awaits j l) }
{}

/// Nor does a run with shared berths, if each group that a branch names is in a pool with a berth
/// and may hold a line there.
pub fn shared_berths_never_get_stuck()
    ensures { (s : SharedPlan) (j : List Entry) → Sound s.plan → EachHasPool s
        → LegalBy (shared_discipline s) j → halted j ≡ false
        → AllRest (shared_discipline s) (2 * seats s) j
        → (all_settled s.plan j ≡ true) ⊎ ((l : ℕ) × Awaits j l) }
{}

/// Once all actions are settled, or a lane has halted, no lane stays: if every lane rests, each has
/// been told to stop or has halted, or some process owes its end. Lanes that halted count as
/// resting here.
pub fn lanes_leave()
    ensures own { (p : Plan) (j : List Entry) → LegalBy (own_discipline p) j → is_over p j ≡ true
        → AllRest (own_discipline p) (2 * berths p) j
        → AllLeft (2 * berths p) j ⊎ ((l : ℕ) × AwaitsEnd j l) }
    ensures delayed { (p : Plan) (n : ℕ) (j : List Entry) → LegalBy (delayed_discipline p n) j
        → is_over p j ≡ true → AllRest (delayed_discipline p n) (2 * berths p + 1) j
        → AllLeft (2 * berths p + 1) j ⊎ ((l : ℕ) × AwaitsEnd j l) }
    ensures shared { (s : SharedPlan) (j : List Entry) → LegalBy (shared_discipline s) j
        → is_over s.plan j ≡ true → AllRest (shared_discipline s) (2 * seats s) j
        → AllLeft (2 * seats s) j ⊎ ((l : ℕ) × AwaitsEnd j l) }
{}

/// Together: if every lane rests, whether or not one has halted, each lane was told to stop or has
/// halted, or some process owes an answer or its end.
pub fn runs_end_or_wait()
    ensures own { (p : Plan) (j : List Entry) → Sound p → EachHasBerth p
        → LegalBy (own_discipline p) j → AllRest (own_discipline p) (2 * berths p) j
        → AllLeft (2 * berths p) j ⊎ ((l : ℕ) × Owes j l) }
    ensures delayed { (p : Plan) (n : ℕ) (j : List Entry) → Sound p → EachHasBerth p
        → LegalBy (delayed_discipline p n) j
        → AllRest (delayed_discipline p n) (2 * berths p + 1) j
        → AllLeft (2 * berths p + 1) j ⊎ ((l : ℕ) × Owes j l) }
    ensures shared { (s : SharedPlan) (j : List Entry) → Sound s.plan → EachHasPool s
        → LegalBy (shared_discipline s) j → AllRest (shared_discipline s) (2 * seats s) j
        → AllLeft (2 * seats s) j ⊎ ((l : ℕ) × Owes j l) }
{}

/// The same at each moment of a run, as its journal has it in the end.
pub fn no_moment_is_stuck()
    ensures own { (p : Plan) (j : List Entry) → Sound p → EachHasBerth p
        → LegalBy (own_discipline p) j → NeverStuck (own_discipline p) (2 * berths p) j }
    ensures delayed { (p : Plan) (n : ℕ) (j : List Entry) → Sound p → EachHasBerth p
        → LegalBy (delayed_discipline p n) j
        → NeverStuck (delayed_discipline p n) (2 * berths p + 1) j }
    ensures shared { (s : SharedPlan) (j : List Entry) → Sound s.plan → EachHasPool s
        → LegalBy (shared_discipline s) j → NeverStuck (shared_discipline s) (2 * seats s) j }
{}

/// A run doesn't wait for an answer that nobody wants, if it can ask for its end: if every lane
/// rests and none has halted, each pending request of a live line that isn't wanted has a Cancel,
/// or its line can't be asked. (A Single line that can't be asked is killed for such a request.)
pub fn unwanted_are_asked()
    ensures own { (p : Plan) (j : List Entry) (w l : ℕ) → LegalBy (own_discipline p) j
        → halted j ≡ false → AllRest (own_discipline p) (2 * berths p) j
        → last_line j w ≡ Some l → live j l ≡ true → UnwantedAreAsked p j l }
    ensures delayed { (p : Plan) (n : ℕ) (j : List Entry) (w l : ℕ)
        → LegalBy (delayed_discipline p n) j
        → halted j ≡ false → AllRest (delayed_discipline p n) (2 * berths p + 1) j
        → last_line j w ≡ Some l → live j l ≡ true → UnwantedAreAsked p j l }
    ensures shared { (s : SharedPlan) (j : List Entry) (w l : ℕ) → LegalBy (shared_discipline s) j
        → halted j ≡ false → AllRest (shared_discipline s) (2 * seats s) j
        → last_line j w ≡ Some l → live j l ≡ true → UnwantedAreAsked s.plan j l }
{}

/// No branch waits for a Tick that nobody makes: if every lane rests and none has halted, each
/// queued local branch has waited long enough.
pub fn none_waits_unticked()
    ensures { (p : Plan) (n : ℕ) (j : List Entry) (a : ℕ) (x : PlanAction)
        → LegalBy (delayed_discipline p n) j → halted j ≡ false
        → AllRest (delayed_discipline p n) (2 * berths p + 1) j
        → slice_get p.actions a ≡ Some x → queued p j a Local x ≡ true
        → has_waited p n j a x ≡ true }
{}

/// A journal has few entries: beside noise (answers to no open request, and answers of a line that
/// broke before) at most twelve for each attempt that the plan allows, one for each action and one
/// for each lane; and with a delay of n Ticks, n more for each action that uses both branches. The
/// last clause says it of each lawful journal, beside its noted Ticks.
pub fn calls_are_few()
    ensures own { (p : Plan) (j : List Entry) → Sound p → LegalBy (own_discipline p) j
        → CallsAreFew p (2 * berths p) j }
    ensures delayed { (p : Plan) (n : ℕ) (j : List Entry) → Sound p
        → LegalBy (delayed_discipline p n) j
        → DelayedCallsAreFew p n (2 * delayed_seats p) j }
    ensures shared { (s : SharedPlan) (j : List Entry) → Sound s.plan
        → LegalBy (shared_discipline s) j → CallsAreFew s.plan (2 * seats s) j }
    ensures lawful { (p : Plan) (lanes : ℕ) (j : List Entry) → 1 ≤ p.limit → Lawful p j
        → AllWithin lanes j → CallsAreFewButTicks p lanes j }
{}
