ghost use Rattle.std.specs.Prelude.{◌≡◌, option_map};
ghost use Rattle.journal_lookback.specs.Lookback.{grants, grant_fact, prize_of};

use exec_journal::{Attempt, Call, Entry, Found, Reply};

/// A claim that was granted, without the files.
#[derive(Clone, Copy)]
pub struct Grant {
    pub attempt: Attempt,
    pub prize: GrantKind,
}

/// The finding of a granted claim.
#[derive(Clone, Copy)]
pub enum GrantKind {
    Files,
    Exit(i32),
    Nothing,
}

/// Returns the grant of the action at this entry.
pub fn grant_in(entry: &Entry, action: u32) -> Option<Grant>
    ensures { result ≡ option_map grant_fact (grants action entry.now) }
{
    match &entry.call {
        Call::Claim {
            action: claimed,
            branch,
            attempt,
            found,
        } if matches!(&entry.reply, Reply::Granted) && *claimed == action => Some(Grant {
            attempt: Attempt {
                action,
                branch: *branch,
                number: *attempt,
            },
            prize: prize_in(found),
        }),
        _ => None,
    }
}

fn prize_in(found: &Found) -> GrantKind
    ensures { result ≡ prize_of found.now }
{
    match found {
        Found::Files(_) => GrantKind::Files,
        Found::Exit(code) => GrantKind::Exit(*code),
        Found::Missing(_) | Found::RoomFault | Found::Refused => GrantKind::Nothing,
    }
}
