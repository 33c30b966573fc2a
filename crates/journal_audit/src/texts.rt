// The text of a legal journal, checked.
ghost use Rattle.std.specs.Prelude.{◌≡◌, ◌≤◌, IfOk, List, length, reverse};
ghost use Rattle.run_plan.specs.declared.plan.Plan.{Plan};
ghost use Rattle.run_plan.specs.Sound.{Sound};
ghost use Rattle.exec_journal.specs.Entry.{Entry};
ghost use Rattle.exec_journal.specs.Legal.{Legal};
ghost use Rattle.journal_text.specs.Fits.{Each};
ghost use Rattle.journal_text.specs.Lines.{IsWrittenEntry, IsWrittenPlan, text_of};
ghost use Rattle.journal_replay.specs.Verdicts.{Judges};
ghost use Rattle.journal_replay.specs.declared.verdict.Verdict.TheVariants as verdict;

use crate::asked::Asked;
use crate::audit;
use exec_journal::{Journal, Plan};
use journal_laws::laws::{answers_are_paired, branches_win_once, own_berths_are_lawful};
use journal_replay::Verdict;
use journal_replay::laws::texts_are_legal;
use journal_text::journal_text;
use plain_values::NoMemory;
use spawn_core::EarliestFirst;
use std::alloc::Global;

/// The written text of a legal journal of a sound plan is judged legal, unless it is too long.
pub fn legal_texts_are_judged()
    ensures { (p : Plan) (j : List Entry) → Sound p → Legal p (reverse j) → IsWrittenPlan p
        → Each IsWrittenEntry j → length (text_of p j) ≤ 268435456
        → Judges Legal (text_of p j) (verdict.Yes (length p.actions) (length j)) }
{
    own_berths_are_lawful();
    branches_win_once();
    answers_are_paired();
    texts_are_legal::<Asked<EarliestFirst>>();
}

/// Returns the verdict on the text of a legal journal of a sound plan: Yes, unless it is too long.
///
/// # Errors
///
/// Returns `NoMemory` if memory runs out.
pub fn audit_again(alloc: Global, plan: &Plan, journal: &Journal) -> Result<Verdict, NoMemory>
    requires sound { Sound plan.now }
    requires legal { Legal plan.now (reverse journal.now) }
    ensures { IfOk result (λ v. length (text_of plan.now journal.now) ≤ 268435456
        → v ≡ verdict.Yes (length plan.now.actions) (length journal.now)) }
{
    legal_texts_are_judged();
    let text = journal_text(alloc, plan, journal)?;
    let verdict = audit(alloc, text.as_str().as_bytes())?;
    Ok(verdict)
}
