// Who answers requests, whatever they are.
ghost use Rattle.std.specs.Prelude.{◌≡◌, List, ℕ, true, false, IfOk, OnErr};
ghost use Rattle.json_framing.specs.declared.cutter.Framing.{Framing};
ghost use Rattle.message_service.specs.Stream.{ReadsFrame};

use crate::flag::Flag;
use json_framing::Framing;
use plain_values::NoMemory;
use std::alloc::Global;
use std::sync::Wait;
use work_queue::Kind;

/// What was made of a request.
#[derive(Drop)]
pub struct Made<Y> {
    pub response: Y,
    /// The work was left unfinished, since the request was cancelled. The request is given up, and the
    /// response isn't put.
    pub stopped: bool,
}

/// Who answers requests, one at a time, and how they are read and responses written. Each lane that
/// answers has one, with a state of its own.
pub trait Answerer<X, Y>: Kind<X, Y> + Drop {
    // How the frames of the input are marked.
    ghost framing: { Framing };

    // The handler before and after, where it has answered a request so.
    ghost answers: { Self → X → Y → Self → Type 0 };

    // The handler before and after, where it has broken off in a request for lack of memory.
    ghost breaks: { Self → X → Self → Type 0 };

    // Which request a frame spells.
    ghost spells: { List ℕ → X → Type 0 };

    /// How the frames of the input are marked.
    fn framing() -> Framing
        ensures { result ≡ framing };

    /// The request that a frame spells; `None` where it spells none.
    ///
    /// # Errors
    ///
    /// `NoMemory`.
    fn read(alloc: Global, frame: &[u8]) -> Result<Option<X>, NoMemory>
        ensures { IfOk result (ReadsFrame spells frame.now) };

    /// The bytes of a response.
    ///
    /// # Errors
    ///
    /// `NoMemory`.
    fn write(alloc: Global, response: &Y) -> Result<Vec<u8>, NoMemory>
        ensures { IfOk result (λ bytes. bytes.items ≡ Self.written response.now) };

    /// Does what a request asks. It may stop early and report so if it has seen the flag raised.
    ///
    /// # Errors
    ///
    /// `NoMemory`, and then all lanes end.
    fn answer<R: Wait, F: Flag>(
        &mut self,
        rt: &R,
        alloc: Global,
        request: &X,
        flag: &mut F,
    ) -> Result<Made<Y>, NoMemory>
        ensures same { F.owner flag.new ≡ F.owner flag.old }
        ensures stops { IfOk result (λ made. made.stopped ≡ true → F.raised flag.new ≡ true) }
        ensures says { IfOk result (λ made. made.stopped ≡ false
            → Self.says request.now false made.response) }
        ensures answers { IfOk result (λ made.
            answers self.old request.now made.response self.new) }
        ensures breaks { OnErr result (breaks self.old request.now self.new) };

    /// The response to a request that was cancelled.
    fn give_up(alloc: Global, request: &X) -> Y
        ensures { Self.says request.now true result };
}
