//! Replies that join the history.
ghost use Rattle.std.specs.Prelude.{◌≡◌, true};
ghost use Rattle.exec_journal.specs.Entries.{is_kept};
ghost use Rattle.core_machine.specs.Replies.{is_start, is_order, is_of_tap};

use exec_journal::Reply;

/// Returns an equal reply if it joins the history, otherwise Idle. The function takes no memory.
pub(crate) fn copy_of(reply: &Reply) -> Reply
    ensures { is_kept reply.now ≡ true → result ≡ reply.now }
{
    match reply {
        Reply::Launch { .. } | Reply::Send { .. } => copy_of_start(reply),
        Reply::Cancel { .. } | Reply::Gather { .. } | Reply::Kill { .. } | Reply::Stop => {
            copy_of_order(reply)
        }
        Reply::Line { .. }
        | Reply::Matched { .. }
        | Reply::Late { .. }
        | Reply::Greeted
        | Reply::Stray(_)
        | Reply::Breach(_) => copy_of_tap_reply(reply),
        Reply::Noted => Reply::Noted,
        Reply::Granted => Reply::Granted,
        Reply::Lost => Reply::Lost,
        Reply::Dropped => Reply::Dropped,
        Reply::AgainLater => Reply::AgainLater,
        Reply::Idle | Reply::File(_) | Reply::NoFile | Reply::NoMemory | Reply::Astray => {
            Reply::Idle
        }
    }
}

/// Copies an order by which an attempt starts.
fn copy_of_start(reply: &Reply) -> Reply
    ensures { is_start reply.now ≡ true → result ≡ reply.now }
{
    match *reply {
        Reply::Launch {
            line,
            action,
            branch,
            attempt,
        } => Reply::Launch {
            line,
            action,
            branch,
            attempt,
        },
        Reply::Send {
            line,
            number,
            action,
            branch,
            attempt,
        } => Reply::Send {
            line,
            number,
            action,
            branch,
            attempt,
        },
        _ => Reply::Idle,
    }
}

/// Copies any other order.
fn copy_of_order(reply: &Reply) -> Reply
    ensures { is_order reply.now ≡ true → result ≡ reply.now }
{
    match *reply {
        Reply::Cancel { line, number } => Reply::Cancel { line, number },
        Reply::Gather {
            line,
            number,
            action,
            branch,
            attempt,
            exit,
            refused,
        } => Reply::Gather {
            line,
            number,
            action,
            branch,
            attempt,
            exit,
            refused,
        },
        Reply::Kill { line, why } => Reply::Kill { line, why },
        Reply::Stop => Reply::Stop,
        _ => Reply::Idle,
    }
}

/// Copies a reply to a tap lane, which is given a line and reports what the line writes.
fn copy_of_tap_reply(reply: &Reply) -> Reply
    ensures { is_of_tap reply.now ≡ true → result ≡ reply.now }
{
    match *reply {
        Reply::Line { line } => Reply::Line { line },
        Reply::Matched {
            action,
            branch,
            attempt,
        } => Reply::Matched {
            action,
            branch,
            attempt,
        },
        Reply::Late {
            action,
            branch,
            attempt,
        } => Reply::Late {
            action,
            branch,
            attempt,
        },
        Reply::Greeted => Reply::Greeted,
        Reply::Stray(why) => Reply::Stray(why),
        Reply::Breach(why) => Reply::Breach(why),
        _ => Reply::Idle,
    }
}
