// The scheduling core of any policy in the form that an auditor uses.
ghost use Rattle.std.specs.Prelude.{◌≡◌, [], ℕ, List, IfOk};
ghost use Rattle.run_plan.specs.Sound.{Sound};
ghost use Rattle.journal_replay.specs.Knows.{Begins};
ghost use Rattle.journal_audit.specs.Opening.{IsReady};
ghost use Rattle.journal_audit.specs.Standing.{AskedStands};

use crate::opens::{Opened, Opens};
use exec_journal::{Call, Plan, Reply};
use journal_replay::{Begun, Replayed};
use plain_values::NoMemory;
use spawn_core::{Core, Policy};
use std::alloc::Global;

/// The core of a run whose journal is read, with this policy.
#[derive(Drop)]
pub struct Asked<P: Policy> {
    core: Core<P>,
}

impl<P: Opens> Replayed for Asked<P> {
    ghost use Rattle.std.specs.Prelude.{◌∷◌};

    type Basis = P::Basis;

    ghost rules = { P.rules };

    ghost stands = { λ b a j. AskedStands P.discipline P.stands b a j };

    ghost none = { λ b. P.legal_makes b [] tt };

    ghost fronts = { λ b e j made. P.legal_makes b j (P.makes_legal b (e ∷ j) made).0 };

    ghost kept = { λ b e j made. (P.makes_legal b (e ∷ j) made).1.kept };

    fn spells(alloc: Global, line: &[u8]) -> Result<bool, NoMemory> {
        P::spells(alloc, line)
    }

    fn begin(alloc: Global, line: &[u8]) -> Result<Begun<Asked<P>>, NoMemory> {
        match P::open(alloc, line)? {
            Opened::Misread => Ok(Begun::Misread),
            Opened::Unsound => Ok(Begun::Unsound),
            Opened::Ready { policy, plan, twin } => core_with(alloc, policy, plan, twin),
        }
    }

    fn reply(&mut self, lane: u32, call: &Call) -> Reply {
        self.core.step(lane, call)
    }
}

// Returns the core with this policy, which hasn't been called yet, its plan and its number of lanes.
fn core_with<P: Opens>(
    alloc: Global,
    policy: P,
    plan: Plan,
    twin: Plan,
) -> Result<Begun<Asked<P>>, NoMemory>
    requires plan { Sound plan }
    requires twin { twin ≡ plan }
    requires begins { P.stands (P.basis policy plan) policy [] }
    ensures { (line : List ℕ) → IsReady P.rules P.basis P.stands line policy plan twin
        → IfOk result (Begins P.rules (AskedStands P.discipline P.stands) line) }
{
    let lanes = 2 * policy.berths(&plan);
    let core = Core::with_policy(alloc, policy, twin)?;
    Ok(Begun::Going {
        core: Asked { core },
        plan,
        lanes,
    })
}
