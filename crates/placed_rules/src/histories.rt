//! The replies of the rules after a history. The function does nothing: it is a law.
ghost use Rattle.std.specs.Prelude.{◌≡◌, ℕ, true, Option, None};
ghost use Rattle.run_plan.specs.declared.plan.Plan.{Plan};
ghost use Rattle.core_contract.specs.Disciplines.{IsDiscipline, own_discipline};
ghost use Rattle.placed_rules.specs.declared.placed.Placed.{Placed};
ghost use Rattle.placed_rules.specs.declared.pools.SharedPlan.{SharedPlan};
ghost use Rattle.placed_rules.specs.Pools.{SoundPools, seats, usable, usable_seats};
ghost use Rattle.placed_rules.specs.Placed.{fits_in, on_own, on_pools, placed_discipline};

/// The rules of a plan on its berths are a discipline, over pools that fit. So the laws of `Rules`
/// hold for their histories. An order's attempt is of an executor's group exactly if its berth is
/// one of executors, and the berth whose lane makes Ticks gets no order of an attempt.
///
/// On own berths, and without Ticks, they are the rules of the journal. Each plan has pools that
/// fit if pools that don't fit lose their groups. Sound pools stay as they are.
pub fn placed_berths_are_a_discipline()
    ensures discipline { (x : Placed) → fits_in x.plan x.seating ≡ true
        → IsDiscipline (placed_discipline x) }
    ensures own { (p : Plan) (ticks : Option ℕ)
        → IsDiscipline (placed_discipline (on_own p ticks)) }
    ensures plain { (p : Plan) → placed_discipline (on_own p None) ≡ own_discipline p }
    ensures usable { (s : SharedPlan) (ticks : Option ℕ)
        → IsDiscipline (placed_discipline (on_pools (usable s) ticks)) }
    ensures seats { (s : SharedPlan) → seats (usable s) ≡ usable_seats s.pools }
    ensures sound { (s : SharedPlan) → SoundPools s → usable s ≡ s }
{}
