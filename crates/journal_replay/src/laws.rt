//! Laws about the text of a legal journal, and about texts without a report. The functions do nothing.
ghost use Rattle.std.specs.Prelude.{◌≡◌, ◌≤◌, ◌∷◌, ℕ, List, Some, true, is_some, length, reverse};
ghost use Rattle.exec_journal.specs.Entry.{Entry};
ghost use Rattle.exec_journal.specs.Paired.{Paired};
ghost use Rattle.exec_journal.specs.Race.{Race};
ghost use Rattle.journal_text.specs.Fits.{Each};
ghost use Rattle.journal_text.specs.Lines.{IsOneLine, IsWrittenEntry, entries_text, lines_of};
ghost use Rattle.journal_replay.specs.Fronts.{JudgesInputBy, report_lines_by};
ghost use Rattle.journal_replay.specs.Verdicts.{JudgesBy};
ghost use Rattle.journal_replay.specs.declared.verdict.Verdict.{Verdict};
ghost use Rattle.journal_replay.specs.declared.verdict.Verdict.TheVariants as verdict;

use crate::replayed::Replayed;

/// The written text of a legal journal of a sound basis is judged legal, unless it is too long. Its first line is any
/// that spells the basis.
pub fn texts_are_legal<C: Replayed>()
    ensures { (b : C.Basis) (top : List ℕ) (j : List Entry) → C.rules.sound b
        → C.rules.makes b (reverse j) → Race (reverse j) → Paired (C.rules.plan b) (reverse j)
        → IsOneLine top → C.rules.spelled top ≡ Some b → Each IsWrittenEntry j
        → length (entries_text top j) ≤ 268435456
        → JudgesBy C.rules (entries_text top j)
        (verdict.Yes (length (C.rules.plan b).actions) (length j)) }
{}

/// No report stands before lines of which the first spells a basis; and bytes before which none stands are judged as a
/// text.
pub fn plans_begin_texts<C: Replayed>()
    ensures none { (top : List ℕ) (rest : List (List ℕ)) → is_some (C.rules.spelled top) ≡ true
        → report_lines_by C.rules.spelled (top ∷ rest) ≡ 0 }
    ensures whole { (bytes : List ℕ) (v : Verdict)
        → report_lines_by C.rules.spelled (lines_of bytes) ≡ 0
        → JudgesInputBy C.rules bytes v → JudgesBy C.rules bytes v }
{}
