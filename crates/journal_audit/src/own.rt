// The policy of own berths, opened by a plan's row.
ghost use Rattle.std.specs.Prelude.{◌≡◌, IfOk, Some, is_some, true};
ghost use Rattle.journal_text.specs.Lines.{plan_of};

use crate::opens::{Opened, Opens};
use exec_journal::Plan;
use journal_reading::{Misread, read_plan};
use journal_replay::is_sound;
use plain_values::NoMemory;
use spawn_core::EarliestFirst;
use std::alloc::Global;

impl Opens for EarliestFirst {
    ghost use Rattle.std.specs.Prelude.{refl};
    ghost use Rattle.exec_journal.specs.Legal.{Legal};
    ghost use Rattle.journal_replay.specs.Legality.{of_plans};
    ghost use Rattle.discipline_laws.proofs.OwnDiscipline.{legal_own, own_legal};

    ghost rules = { of_plans Legal };

    fn spells(alloc: Global, line: &[u8]) -> Result<bool, NoMemory> {
        match read_plan(alloc, line) {
            Ok(_) => Ok(true),
            Err(Misread::Otherwise) => Ok(false),
            Err(Misread::NoMemory) => Err(NoMemory),
        }
    }

    fn open(alloc: Global, line: &[u8]) -> Result<Opened<EarliestFirst>, NoMemory> {
        let plan = match read_plan(alloc, line) {
            Ok(plan) => plan,
            Err(Misread::Otherwise) => return Ok(Opened::Misread),
            Err(Misread::NoMemory) => return Err(NoMemory),
        };
        if !is_sound(&plan) {
            return Ok(Opened::Unsound);
        }
        let twin = read_again(alloc, line)?;
        Ok(Opened::Ready {
            policy: EarliestFirst,
            plan,
            twin,
        })
    }

    ghost plan_fits = { λ p. refl };

    ghost lanes_fit = { λ p. refl };

    ghost makes_legal = { legal_own };

    ghost legal_makes = { own_legal };
}

// Returns the plan of a line that spells one.
fn read_again(alloc: Global, line: &[u8]) -> Result<Plan, NoMemory>
    requires { is_some (plan_of line.now) ≡ true }
    ensures { IfOk result (λ p. plan_of line.now ≡ Some p) }
{
    match read_plan(alloc, line) {
        Ok(plan) => Ok(plan),
        Err(Misread::Otherwise) => unreachable!(),
        Err(Misread::NoMemory) => Err(NoMemory),
    }
}
