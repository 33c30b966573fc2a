//! The tables' facts about a berth's last line.
ghost use Rattle.std.specs.Prelude.{◌≡◌, ◌<◌, ℕ, not, false, List, Some, None};
ghost use Rattle.exec_journal.specs.Entry.{Entry};
ghost use Rattle.exec_journal.specs.Rules.{is_vacant};
ghost use Rattle.exec_journal.specs.Words.{halted, last_line};
ghost use Rattle.core_contract.specs.Disciplines.{LegalBy};
ghost use Rattle.core_state.specs.declared.state.State.{State};
ghost use Rattle.core_laws.specs.Stands.{Stands};
ghost use Rattle.placed_rules.specs.declared.pools.SharedPlan.{SharedPlan};
ghost use Rattle.placed_rules.specs.declared.pools.SharedPool.{SharedPool};
ghost use Rattle.placed_rules.specs.Needs as needs;
ghost use Rattle.placed_rules.specs.Pools.{seats};
ghost use Rattle.placed_rules.specs.Placed.{shared_discipline};
ghost use Rattle.shared_laws.specs.Berths.{holds, may_evict, rests};
ghost use Rattle.shared_laws.specs.Spoken.{IsSpoken};

/// The tables' facts about a berth's last line agree with the journal, as long as no lane has
/// halted. The facts are that the line may still have a process, and that it is idle.
pub fn lines_are_told()
    ensures holds { (q : SharedPlan) (s : State) (j : List Entry) (w l : ℕ)
        → Stands q.plan (seats q) s j → LegalBy (shared_discipline q) j → halted j ≡ false
        → last_line j w ≡ Some l → holds s w ≡ needs.is_held j l }
    ensures vacant { (q : SharedPlan) (s : State) (j : List Entry) (w : ℕ)
        → Stands q.plan (seats q) s j → LegalBy (shared_discipline q) j → halted j ≡ false
        → not (holds s w) ≡ is_vacant j (last_line j w) }
    ensures rests { (q : SharedPlan) (s : State) (j : List Entry) (w l : ℕ)
        → Stands q.plan (seats q) s j → LegalBy (shared_discipline q) j → halted j ≡ false
        → last_line j w ≡ Some l → rests s w ≡ needs.is_idle q.plan j l }
{}

/// The choice of the line that is given up agrees too, if the order in which berths last reported is the
/// journal's.
pub fn evictions_are_told()
    ensures { (q : SharedPlan) (s : State) (j : List Entry) (ws : List ℕ) (w l : ℕ)
        (pool : SharedPool) → Stands q.plan (seats q) s j → LegalBy (shared_discipline q) j
        → halted j ≡ false → IsSpoken (seats q) j ws → last_line j w ≡ Some l
        → may_evict q s ws w pool ≡ needs.may_evict q None j w pool l }
{}
