// Why a worker has ended.
ghost use Rattle.std.specs.Prelude.{◌≡◌};
ghost use Rattle.message_service.specs.Ends.{status_of};
ghost use Rattle.worker_kit.specs.Serves.{finish_of};

use message_service::Finish;

/// Why a worker has ended.
#[derive(Clone, Copy, PartialEq, Eq)]
pub enum KitEnd {
    /// The input has ended.
    End,
    /// The input can't be read.
    TapFault,
    /// What stands next in the input spells no request.
    BadFrame,
    /// So many pieces were taken that no more are.
    Long,
    /// The output can't be written.
    SinkFault,
    /// Memory ran out.
    NoMemory,
}

impl KitEnd {
    /// The end of a program that has finished so.
    pub(crate) fn of(finish: Finish) -> KitEnd
        ensures { finish_of result ≡ finish }
    {
        match finish {
            Finish::AtEnd => KitEnd::End,
            Finish::InputFault => KitEnd::TapFault,
            Finish::BadInput => KitEnd::BadFrame,
            Finish::TooLong => KitEnd::Long,
            Finish::OutputFault => KitEnd::SinkFault,
            Finish::NoMemory => KitEnd::NoMemory,
        }
    }

    /// The status with which the program ends: 0 for `End`, 3 for `NoMemory`, 4 for `BadFrame`, 5 for
    /// `TapFault`, 6 for `SinkFault` and 7 for `Long`.
    pub fn status(self) -> u8
        ensures { result ≡ status_of (finish_of self) }
    {
        match self {
            KitEnd::End => 0,
            KitEnd::NoMemory => 3,
            KitEnd::BadFrame => 4,
            KitEnd::TapFault => 5,
            KitEnd::SinkFault => 6,
            KitEnd::Long => 7,
        }
    }
}
