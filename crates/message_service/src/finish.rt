ghost use Rattle.std.specs.Prelude.{◌≡◌};
ghost use Rattle.message_service.specs.Ends.{status_of};

/// The reason why a program that reads messages has ended.
#[derive(Clone, Copy, PartialEq, Eq)]
pub enum Finish {
    /// The input has ended.
    AtEnd,
    /// Memory ran out.
    NoMemory,
    /// The next bytes of the input spell no message.
    BadInput,
    /// The input can't be read.
    InputFault,
    /// The output can't be written.
    OutputFault,
    /// The number of pieces has reached its limit, so no more are read.
    TooLong,
}

impl Finish {
    /// Returns the status with which the program ends.
    pub fn status(self) -> u8
        ensures { result ≡ status_of self }
    {
        match self {
            Finish::AtEnd => 0,
            Finish::NoMemory => 3,
            Finish::BadInput => 4,
            Finish::InputFault => 5,
            Finish::OutputFault => 6,
            Finish::TooLong => 7,
        }
    }
}
