// The context of the demonstration worker, and its result.
ghost use Rattle.std.specs.Prelude.{◌≡◌};
ghost use Rattle.worker_kit.specs.Serves.{finish_of};
ghost use Rattle.demo_programs.specs.Demo.{ended};

use demo_worker::DemoLane;
use message_service::Finish;
use worker_kit::KitEnd;

/// The demonstration worker's input and output, and the shops with its files.
#[derive(Drop)]
pub struct DemoSite<T, O, S> {
    pub input: T,
    pub out: O,
    /// The shop of commands that are run one after another.
    pub shop: S,
    /// The lanes that answer messages in parallel, each in its own shop.
    pub lanes: Vec<DemoLane<S>>,
}

/// The result of the demonstration worker.
#[derive(Drop)]
pub struct DemoLeft<T, O, S> {
    pub end: DemoEnd,
    pub site: DemoSite<T, O, S>,
}

/// The end of the demonstration worker.
#[derive(Clone, Copy, PartialEq, Eq)]
pub struct DemoEnd {
    /// The status with which the program ends.
    pub status: u8,
    /// The exit code of a command that was run once, if its whole text was written.
    pub exit: Option<u8>,
}

impl DemoEnd {
    pub(crate) fn of(finish: Finish) -> DemoEnd
        ensures { result ≡ ended finish }
    {
        DemoEnd {
            status: finish.status(),
            exit: None,
        }
    }

    pub(crate) fn of_kit(end: KitEnd) -> DemoEnd
        ensures { result ≡ ended (finish_of end) }
    {
        DemoEnd {
            status: end.status(),
            exit: None,
        }
    }
}
