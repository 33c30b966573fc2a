// Compares a recorded reply with the one that the core gave.
ghost use Rattle.std.specs.Prelude.{◌≡◌};
ghost use Rattle.journal_replay.specs.Same.{is_breach, is_cancel, is_gather, is_kill, is_late, is_launch, is_line, is_matched, is_send, is_stray, is_told};
ghost use Rattle.exec_journal.specs.Same.{same_breach, same_stray, same_why};

use exec_journal::{Attempt, BreachWhy, Reply, StrayWhy, Why};

/// Returns true if it is this reply, and it is recorded.
pub(crate) fn is_told(reply: &Reply, told: &Reply) -> bool
    ensures { result ≡ is_told reply.now told.now }
{
    match reply {
        Reply::Launch {
            line,
            action,
            branch,
            attempt,
        } => is_launch(*line, Attempt::of(*action, *branch, *attempt), told),
        Reply::Send {
            line,
            number,
            action,
            branch,
            attempt,
        } => is_send(
            *line,
            *number,
            Attempt::of(*action, *branch, *attempt),
            told,
        ),
        Reply::Cancel { line, number } => is_cancel(*line, *number, told),
        Reply::Gather {
            line,
            number,
            action,
            branch,
            attempt,
            exit,
            refused,
        } => is_gather(
            *line,
            *number,
            Attempt::of(*action, *branch, *attempt),
            *exit,
            *refused,
            told,
        ),
        Reply::Kill { line, why } => is_kill(*line, *why, told),
        Reply::Line { line } => is_line(*line, told),
        Reply::Matched {
            action,
            branch,
            attempt,
        } => is_matched(Attempt::of(*action, *branch, *attempt), told),
        Reply::Late {
            action,
            branch,
            attempt,
        } => is_late(Attempt::of(*action, *branch, *attempt), told),
        Reply::Stray(why) => is_stray(*why, told),
        Reply::Breach(why) => is_breach(*why, told),
        Reply::Stop => matches!(told, Reply::Stop),
        Reply::Noted => matches!(told, Reply::Noted),
        Reply::Granted => matches!(told, Reply::Granted),
        Reply::Lost => matches!(told, Reply::Lost),
        Reply::Dropped => matches!(told, Reply::Dropped),
        Reply::AgainLater => matches!(told, Reply::AgainLater),
        Reply::Greeted => matches!(told, Reply::Greeted),
        Reply::Idle | Reply::File(_) | Reply::NoFile | Reply::NoMemory | Reply::Astray => false,
    }
}

fn is_launch(line: u32, of: Attempt, told: &Reply) -> bool
    ensures { result ≡ is_launch line of told.now }
{
    match told {
        Reply::Launch {
            line: told_line,
            action,
            branch,
            attempt,
        } => *told_line == line && of.is(*action, *branch, *attempt),
        _ => false,
    }
}

fn is_send(line: u32, number: i32, of: Attempt, told: &Reply) -> bool
    ensures { result ≡ is_send line number of told.now }
{
    match told {
        Reply::Send {
            line: told_line,
            number: told_number,
            action,
            branch,
            attempt,
        } => *told_line == line && *told_number == number && of.is(*action, *branch, *attempt),
        _ => false,
    }
}

fn is_cancel(line: u32, number: i32, told: &Reply) -> bool
    ensures { result ≡ is_cancel line number told.now }
{
    match told {
        Reply::Cancel {
            line: told_line,
            number: told_number,
        } => *told_line == line && *told_number == number,
        _ => false,
    }
}

fn is_gather(line: u32, number: i32, of: Attempt, exit: i32, refused: bool, told: &Reply) -> bool
    ensures { result ≡ is_gather line number of exit refused told.now }
{
    match told {
        Reply::Gather {
            line: told_line,
            number: told_number,
            action,
            branch,
            attempt,
            exit: told_exit,
            refused: told,
        } => *told_line == line
            && *told_number == number
            && of.is(*action, *branch, *attempt)
            && *told_exit == exit
            && *told == refused,
        _ => false,
    }
}

fn is_kill(line: u32, why: Why, told: &Reply) -> bool
    ensures { result ≡ is_kill line why told.now }
{
    match told {
        Reply::Kill {
            line: told_line,
            why: told,
        } => *told_line == line && same_why(*told, why),
        _ => false,
    }
}

fn is_line(line: u32, told: &Reply) -> bool
    ensures { result ≡ is_line line told.now }
{
    match told {
        Reply::Line { line: told_line } => *told_line == line,
        _ => false,
    }
}

fn is_matched(of: Attempt, told: &Reply) -> bool
    ensures { result ≡ is_matched of told.now }
{
    match told {
        Reply::Matched {
            action,
            branch,
            attempt,
        } => of.is(*action, *branch, *attempt),
        _ => false,
    }
}

fn is_late(of: Attempt, told: &Reply) -> bool
    ensures { result ≡ is_late of told.now }
{
    match told {
        Reply::Late {
            action,
            branch,
            attempt,
        } => of.is(*action, *branch, *attempt),
        _ => false,
    }
}

fn is_stray(why: StrayWhy, told: &Reply) -> bool
    ensures { result ≡ is_stray why told.now }
{
    match told {
        Reply::Stray(told) => same_stray(*told, why),
        _ => false,
    }
}

fn is_breach(why: BreachWhy, told: &Reply) -> bool
    ensures { result ≡ is_breach why told.now }
{
    match told {
        Reply::Breach(told) => same_breach(*told, why),
        _ => false,
    }
}

fn same_why(told: Why, why: Why) -> bool
    ensures { result ≡ same_why told why }
{
    match told {
        Why::Ended => matches!(why, Why::Ended),
        Why::Breach => matches!(why, Why::Breach),
        Why::Feed => matches!(why, Why::Feed),
        Why::Unwanted => matches!(why, Why::Unwanted),
        Why::Quit => matches!(why, Why::Quit),
        Why::Evicted => matches!(why, Why::Evicted),
    }
}

fn same_stray(told: StrayWhy, why: StrayWhy) -> bool
    ensures { result ≡ same_stray told why }
{
    match told {
        StrayWhy::Never => matches!(why, StrayWhy::Never),
        StrayWhy::Closed => matches!(why, StrayWhy::Closed),
    }
}

fn same_breach(told: BreachWhy, why: BreachWhy) -> bool
    ensures { result ≡ same_breach told why }
{
    match told {
        BreachWhy::Broken => matches!(why, BreachWhy::Broken),
        BreachWhy::WrongNumber => matches!(why, BreachWhy::WrongNumber),
        BreachWhy::Unasked => matches!(why, BreachWhy::Unasked),
        BreachWhy::NotCancelled => matches!(why, BreachWhy::NotCancelled),
    }
}
