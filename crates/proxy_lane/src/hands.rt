//! The lane's hands: the berth with the feeds of its lines. And the work of an action.
ghost use Rattle.std.specs.Prelude.{◌≡◌, ◌<◌, length, slice_get, Some};
ghost use Rattle.outside.specs.Launches.{IsNewChild};
ghost use Rattle.run_values.specs.Settings.{speaks_remote};
ghost use Rattle.proxy_laws.specs.Steps.{open_in, IsLaidBy};
ghost use Rattle.proxy_lane.specs.Held.{first_held};

use outside::Berth;
use proxy_laws::{EndedFeed, OpenFeed};
use remote_messages::WorkAction;
use run_plan::Speech;
use std::alloc::Global;
use std::marker::Model;

/// The berth, the feed of the open line, and the results of the lines before it. `ended` has room
/// for the open line.
#[derive(Drop)]
pub(crate) struct Hands<B: Berth> {
    pub(crate) berth: B,
    pub(crate) open: Option<OpenFeed<B::Feed>>,
    pub(crate) ended: Vec<EndedFeed<B::Feed, B::Child>>,
    /// A line that was started, but not reported because memory ran out.
    pub(crate) unsaid: Option<EndedFeed<B::Feed, B::Child>>,
}

impl<B: Berth> Model for Hands<B> {
    ghost use Rattle.proxy_laws.specs.Lanes.{LaneObjects};
    ghost use Rattle.proxy_lane.specs.Held.{held_of, HasRoom};

    ghost Value = { LaneObjects };

    ghost view = { λ h. held_of B.told B.Feed.told B.Child.told h.berth h.«open» h.ended h.unsaid };

    ghost invariant = { λ h. HasRoom h.«open» h.ended };
}

impl<B: Berth> Hands<B> {
    /// Returns the hands of a lane that has started no line.
    pub(crate) fn new(alloc: Global, berth: B) -> Hands<B>
        ensures { result ≡ first_held (B.told berth) }
    {
        Hands {
            berth,
            open: None,
            ended: Vec::new(alloc),
            unsaid: None,
        }
    }

    /// Returns the line that is open.
    pub(crate) fn open_line(&self) -> Option<u32>
        ensures { result ≡ open_in self.now }
    {
        match &self.open {
            Some(open) => Some(open.line),
            None => None,
        }
    }

    /// Has the berth end the child, and appends it with the open line's feed to the lines that
    /// ended.
    pub(crate) fn lay_by(&mut self, line: u32, child: B::Child)
        requires opened { open_in self.old ≡ Some line }
        requires child { IsNewChild line (B.Child.told child) }
        ensures { IsLaidBy line self.old self.new }
    {
        match self.open.take() {
            Some(open) => {
                let OpenFeed { line: _, feed } = open;
                let mut child = child;
                self.berth.end(line, &mut child);
                self.ended.push_reserved(EndedFeed { line, feed, child });
            }
            None => unreachable!(),
        }
    }
}

/// Returns the work of an action.
pub(crate) fn action_at(actions: &[WorkAction], number: u32) -> &WorkAction
    requires { number < length actions.now }
    ensures { slice_get actions.now number ≡ Some result.now }
{
    match actions.get(number as usize) {
        Some(action) => action,
        None => unreachable!(),
    }
}

/// Returns true if this is the protocol of an executor's lines.
pub(crate) fn is_executor(speech: Speech) -> bool
    ensures { result ≡ speaks_remote speech }
{
    matches!(speech, Speech::Remote)
}
