//! Facts about every journal of a plan on its berths. The functions do nothing: each is a law.
ghost use Rattle.std.specs.Prelude.{◌≡◌, ℕ, true, false, List, [], ◌∷◌, Some, None, slice_get};
ghost use Rattle.run_plan.specs.declared.plan.Plan.{Plan};
ghost use Rattle.run_plan.specs.declared.plan.PlanAction.{PlanAction};
ghost use Rattle.run_plan.specs.Sound.{Sound};
ghost use Rattle.exec_journal.specs.declared.attempt.Attempt.{Attempt};
ghost use Rattle.exec_journal.specs.declared.call.Call.{Call};
ghost use Rattle.exec_journal.specs.declared.call.Call.TheVariants as call;
ghost use Rattle.exec_journal.specs.declared.call.HowEnded.{HowEnded};
ghost use Rattle.exec_journal.specs.declared.reply.Reply.TheVariants as reply;
ghost use Rattle.exec_journal.specs.Entry.{Entry};
ghost use Rattle.exec_journal.specs.Attempts.{ended};
ghost use Rattle.exec_journal.specs.Clean.{Clean};
ghost use Rattle.exec_journal.specs.Entries.{Request, send_in};
ghost use Rattle.exec_journal.specs.Lawful.{Lawful};
ghost use Rattle.exec_journal.specs.Outcomes.{outcome_of, is_ok};
ghost use Rattle.exec_journal.specs.Paired.{Paired};
ghost use Rattle.exec_journal.specs.Race.{Race};
ghost use Rattle.exec_journal.specs.Settled.{bound};
ghost use Rattle.exec_journal.specs.Words.{halted, pending};
ghost use Rattle.journal_laws.specs.Finished.{Finished};
ghost use Rattle.core_contract.specs.Disciplines.{LegalBy};
ghost use Rattle.placed_rules.specs.declared.placed.Placed.{Placed};
ghost use Rattle.placed_rules.specs.Bounds.{TicksAreFew};
ghost use Rattle.placed_rules.specs.Kept.{PlacedKept};
ghost use Rattle.placed_rules.specs.Placed.{placed_discipline, rule_in};
ghost use Rattle.placed_rules.specs.Evicted.{was_evicted};

/// A legal journal of a plan on its berths is lawful. So one branch of an action wins, and each
/// consumed answer has its own request.
pub fn placed_berths_are_lawful()
    ensures lawful { (x : Placed) (j : List Entry) → LegalBy (placed_discipline x) j
        → Lawful x.plan j }
    ensures race { (x : Placed) (j : List Entry) → LegalBy (placed_discipline x) j → Race j }
    ensures paired { (x : Placed) (j : List Entry) → LegalBy (placed_discipline x) j
        → Paired x.plan j }
{}

/// The clauses about each order hold when it is given. On own berths a line is launched only if no
/// line of the group has a free place. In a pool it is launched for a starved group, and given up
/// only if the rule requires it, and the pool never has more lines than berths.
pub fn placed_orders_are_kept()
    ensures { (x : Placed) (j : List Entry) → Sound x.plan → LegalBy (placed_discipline x) j
        → PlacedKept x j }
{}

/// A run is finished when a lane is told to stop and none has halted. If every worker also did its
/// part, every action has success.
pub fn placed_stops_finish_runs()
    ensures stops { (x : Placed) (j : List Entry) (lane : ℕ) (c : Call) → Sound x.plan
        → LegalBy (placed_discipline x) j → rule_in x.plan x.seating x.ticks j lane c ≡ reply.Stop
        → halted j ≡ false → Finished x.plan j }
    ensures clean { (x : Placed) (j : List Entry) (lane : ℕ) (c : Call) → Sound x.plan
        → LegalBy (placed_discipline x) j → Clean j
        → rule_in x.plan x.seating x.ticks j lane c ≡ reply.Stop → halted j ≡ false
        → (a : ℕ) (y : PlanAction) → slice_get x.plan.actions a ≡ Some y
        → is_ok (outcome_of x.plan j a) ≡ true }
{}

/// Ticks end by themselves. For each action that uses both branches, at most as many Ticks are
/// noted as its local branch waits for, and none if no branch waits.
pub fn noted_ticks_are_few()
    ensures { (x : Placed) (j : List Entry) → LegalBy (placed_discipline x) j
        → TicksAreFew x.plan x.ticks j }
{}

/// In any lawful journal, an evicted line has nothing pending and nothing bound, and gets no
/// further Send. So no attempt ends with it.
pub fn evictions_end_nothing()
    ensures empty { (p : Plan) (j : List Entry) (l : ℕ) → Lawful p j → was_evicted j l ≡ true
        → (pending j l ≡ []) × (bound p j l ≡ None) }
    ensures unsent { (p : Plan) (e : Entry) (j : List Entry) (x : Request) → Lawful p (e ∷ j)
        → send_in e.reply ≡ Some x → was_evicted j x.line ≡ false }
    ensures ends { (p : Plan) (e : Entry) (j : List Entry) (l : ℕ) (how : HowEnded)
        → Lawful p (e ∷ j) → e.call ≡ call.Ended l how → was_evicted j l ≡ true
        → (t : Attempt) → ended (e ∷ j) t ≡ ended j t }
{}
