//! The tables' facts about groups.
ghost use Rattle.std.specs.Prelude.{◌≡◌, ℕ, false, List, None};
ghost use Rattle.exec_journal.specs.Entry.{Entry};
ghost use Rattle.exec_journal.specs.Words.{halted};
ghost use Rattle.core_contract.specs.Disciplines.{LegalBy};
ghost use Rattle.core_state.specs.declared.state.State.{State};
ghost use Rattle.core_laws.specs.Stands.{Stands};
ghost use Rattle.placed_rules.specs.declared.pools.SharedPlan.{SharedPlan};
ghost use Rattle.placed_rules.specs.declared.pools.SharedPool.{SharedPool};
ghost use Rattle.placed_rules.specs.Needs as needs;
ghost use Rattle.placed_rules.specs.Pools.{seats};
ghost use Rattle.placed_rules.specs.Shared as rule;
ghost use Rattle.placed_rules.specs.Placed.{shared_discipline};
ghost use Rattle.shared_laws.specs.Berths.{is_starved, next_starved};

/// The tables' facts about groups agree with the journal, as long as no lane has halted: which groups are
/// starved, and what is launched for them.
pub fn groups_are_told()
    ensures starved { (q : SharedPlan) (s : State) (j : List Entry) (pool : SharedPool) (g : ℕ)
        → Stands q.plan (seats q) s j → LegalBy (shared_discipline q) j → halted j ≡ false
        → is_starved q s pool g ≡ needs.is_starved q None j pool g }
    ensures next { (q : SharedPlan) (s : State) (j : List Entry) (pool : SharedPool)
        → Stands q.plan (seats q) s j → LegalBy (shared_discipline q) j → halted j ≡ false
        → next_starved q s pool ≡ rule.next_starved q None j pool }
{}
