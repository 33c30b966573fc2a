ghost use Rattle.std.specs.Prelude.{◌≡◌, IfOk};
ghost use Rattle.outside.specs.Launches.{IsNewFeed, IsNewTap, IsNewChild};
ghost use Rattle.berth_acts.specs.Acts.{Launches, Starts, OnOpened};

use outside::{Berth, Command, Io, Launch};
use plain_values::NoMemory;

/// The result of a Launch.
#[derive(Drop)]
pub enum Opened<D, T, C> {
    /// The line's feed, its tap and its child.
    Line(D, T, C),
    /// The room could not be emptied.
    RoomFault,
    /// The command could not be started.
    LaunchFault,
}

/// Empties the room for a Launch, and starts the line's command in it.
///
/// # Errors
///
/// Returns `NoMemory` if memory runs out. The room was emptied before.
pub fn launch_line<B: Berth>(
    berth: &mut B,
    line: u32,
    command: &Command,
) -> Result<Opened<B::Feed, B::Tap, B::Child>, NoMemory>
    ensures calls { Launches line command.now result (B.told berth.old) (B.told berth.new) }
    ensures feed { IfOk result (λ o. OnOpened o (λ feed _ _. IsNewFeed line (B.Feed.told feed))) }
    ensures tap { IfOk result (λ o. OnOpened o (λ _ tap _. IsNewTap line (B.Tap.told tap))) }
    ensures child { IfOk result
        (λ o. OnOpened o (λ _ _ child. IsNewChild line (B.Child.told child))) }
{
    match berth.room_clear("") {
        Io::Done => start(berth, line, command),
        Io::Failed => Ok(Opened::RoomFault),
    }
}

fn start<B: Berth>(
    berth: &mut B,
    line: u32,
    command: &Command,
) -> Result<Opened<B::Feed, B::Tap, B::Child>, NoMemory>
    ensures calls { Starts line command.now result (B.told berth.old) (B.told berth.new) }
    ensures feed { IfOk result (λ o. OnOpened o (λ feed _ _. IsNewFeed line (B.Feed.told feed))) }
    ensures tap { IfOk result (λ o. OnOpened o (λ _ tap _. IsNewTap line (B.Tap.told tap))) }
    ensures child { IfOk result
        (λ o. OnOpened o (λ _ _ child. IsNewChild line (B.Child.told child))) }
{
    match berth.launch(line, command)? {
        Launch::Started(feed, tap, child) => Ok(Opened::Line(feed, tap, child)),
        Launch::Failed => Ok(Opened::LaunchFault),
    }
}
