// A stream of either form.
ghost use Rattle.std.specs.Prelude.{◌≡◌, ◌++◌, List, ℕ, [], None, Ok, OnOk, OnErr, IfOk, IfSome};
ghost use Rattle.delimited_framing.specs.Splitter.{Gives, StandsFor, fed_more};
ghost use Rattle.json_framing.specs.Cutter.{form_of, framing_of, held, IsSame};

use crate::splitter::LineSplitter;
use delimited_framing::{Next, Splitter};
use plain_values::NoMemory;
use std::alloc::Global;

/// The way in which the frames of a stream are marked.
#[derive(Clone, Copy, PartialEq, Eq)]
pub enum Framing {
    /// Each frame comes after its length.
    Delimited,
    /// Each frame is a line.
    Lines,
}

/// Cuts a stream of either form into its frames, so that a reader of messages is written once.
#[derive(Drop)]
pub enum Cutter {
    Delimited(Splitter),
    Lines(LineSplitter),
}

impl Cutter {
    /// Returns a cutter of frames of at most `limit` bytes.
    pub fn new(alloc: Global, framing: Framing, limit: u64) -> Cutter
        ensures framing { framing_of result ≡ framing }
        ensures stands { StandsFor (form_of framing) [] [] (held result) }
        ensures fresh { ((held result).limit ≡ limit) × ((held result).fault ≡ None) }
    {
        match framing {
            Framing::Delimited => Cutter::Delimited(Splitter::new(alloc, limit)),
            Framing::Lines => Cutter::Lines(LineSplitter::new(alloc, limit)),
        }
    }

    /// Takes the next piece of the stream, or nothing after a fault.
    ///
    /// # Errors
    ///
    /// Returns `NoMemory` if memory runs out. The cutter is then as it was.
    pub fn feed(&mut self, piece: &[u8]) -> Result<(), NoMemory>
        ensures ok { OnOk result ((fed : List ℕ) (given : List (List ℕ))
            → StandsFor (form_of (framing_of self.old)) fed given (held self.old)
            → StandsFor (form_of (framing_of self.old))
            (fed_more (held self.old).fault fed piece.now) given (held self.new)) }
        ensures after_bad { IfSome (held self.old).fault (λ _. result ≡ Ok tt) }
        ensures same { IsSame self.old self.new × ((held self.new).fault ≡ (held self.old).fault) }
        ensures err { OnErr result (held self.new ≡ held self.old) }
    {
        match self {
            Cutter::Delimited(splitter) => splitter.feed(piece),
            Cutter::Lines(splitter) => splitter.feed(piece),
        }
    }

    /// Returns the next frame, if all of it has come.
    ///
    /// # Errors
    ///
    /// Returns `NoMemory` if memory runs out. The cutter is then as it was.
    pub fn next(&mut self) -> Result<Next, NoMemory>
        ensures after_bad { IfSome (held self.old).fault (λ fault. result ≡ Ok (Next.Bad fault)) }
        ensures ok { IfOk result (λ next. (fed : List ℕ) (given : List (List ℕ))
            → StandsFor (form_of (framing_of self.old)) fed given (held self.old)
            → Gives (form_of (framing_of self.old)) fed given
            (held self.old) next (held self.new)) }
        ensures same { framing_of self.new ≡ framing_of self.old }
        ensures err { OnErr result (held self.new ≡ held self.old) }
    {
        match self {
            Cutter::Delimited(splitter) => splitter.next(),
            Cutter::Lines(splitter) => splitter.next(),
        }
    }
}
