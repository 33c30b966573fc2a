// The run, and the text of its journal after the report.
ghost use Rattle.std.specs.Prelude.{◌≡◌, None, Some, map, reverse, string_bytes};
ghost use Rattle.build_report.specs.Faults.{fault_status};
ghost use Rattle.exec_journal.specs.Legal.{Legal};
ghost use Rattle.outside.specs.Causes.{Counts};
ghost use Rattle.build_report.specs.declared.fault.RunFault.TheVariants as faults;
ghost use Rattle.journal_text.specs.Lines.{text_of};
ghost use Rattle.run_plan.specs.Sound.{Sound};
ghost use Rattle.tool_words.specs.Options.{options_of};
ghost use Rattle.recorded_runs.specs.Recorded.{IsJudgedYes, Records, WherePut, YesIfPut};
ghost use Rattle.worker_run.specs.Ends.{IsReportEnd, Puts};
ghost use Rattle.worker_run.specs.Headline.{RunKeeps};

use exec_journal::{Journal, Plan};
use journal_audit::legal_texts_are_judged;
use journal_text::journal_text;
use outside::{Berth, Floor, Io, Sink};
use plain_values::NoMemory;
use std::alloc::Global;
use std::sync::Wait;
use std::thread::Threads;
use worker_run::{Ended, RunFault, Stage, run_build};

/// Does what `run_build` does. With status 0 or 1, also writes the text of the run's journal after the report. The text has a
/// line for the plan, and one for each entry.
///
/// If memory for the text runs out, the fault is `NoMemory(After)`. In that case the report may have been written. If the sink
/// fails in the text, the fault is `SinkFailed`. With either fault, `task` is present as before.
pub fn run_recorded<R: Threads + Wait + Sync, F: Floor, O: Sink>(
    rt: &R,
    alloc: Global,
    words: &[String],
    floor: F,
    out: &mut O,
) -> Ended<F>
where
    F::Berth: Send,
    F::Place: Send,
    <F::Berth as Berth>::Feed: Send,
    <F::Berth as Berth>::Tap: Send,
    <F::Berth as Berth>::Child: Send,
    // Everything that `run_build` promises, except about what is written.
    ensures run { RunKeeps (options_of (map string_bytes words.now)) (F.told floor) result }
    // The report and the text of the journal in the result.
    ensures report { Records result (O.told out.old) (O.told out.new) }
    // A check of that text finds it legal.
    ensures judged { YesIfPut result }
    ensures sink { Counts (O.told out.old).faults (O.told out.new).faults
        (result.fault ≡ Some faults.SinkFailed) }
{
    let ended = run_build(rt, alloc, words, floor, out);
    if ended.fault.is_some() {
        return ended;
    }
    match &ended.task {
        Some(task) => match put_journal(alloc, &task.plan, &ended.laid.journal, out) {
            Some(fault) => end_late(ended, fault),
            None => ended,
        },
        None => ended,
    }
}

// Returns the same run, with a fault after its report.
fn end_late<F: Floor>(ended: Ended<F>, fault: RunFault) -> Ended<F>
    ensures fault { result.fault ≡ Some fault }
    ensures status { result.status ≡ fault_status fault }
    ensures task { result.task ≡ ended.task }
    ensures left { result.left ≡ ended.left }
    ensures floor { result.floor ≡ ended.floor }
{
    let mut ended = ended;
    ended.status = fault.status();
    ended.fault = Some(fault);
    ended
}

/// Writes the text of a legal journal of this plan to any sink, in one put: a line for the plan, and one for
/// each entry. A check of the text finds it legal. Returns the fault, if there is one.
pub fn put_journal<O: Sink>(
    alloc: Global,
    plan: &Plan,
    journal: &Journal,
    out: &mut O,
) -> Option<RunFault>
    requires sound { Sound plan.now }
    requires legal { Legal plan.now (reverse journal.now) }
    ensures put { Puts result (text_of plan.now journal.now) (O.told out.old) (O.told out.new) }
    ensures kind { IsReportEnd result }
    ensures judged { WherePut result (IsJudgedYes plan.now journal.now) }
    ensures sink { Counts (O.told out.old).faults (O.told out.new).faults
        (result ≡ Some faults.SinkFailed) }
{
    legal_texts_are_judged();
    let Ok(text) = journal_text(alloc, plan, journal) else {
        return Some(RunFault::NoMemory(Stage::After));
    };
    match out.put(text.as_str().as_bytes()) {
        Io::Done => None,
        Io::Failed => Some(RunFault::SinkFailed),
    }
}
