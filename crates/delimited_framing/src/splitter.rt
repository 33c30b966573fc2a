// The frames of a stream that comes in pieces.
ghost use Rattle.std.specs.Prelude.{◌≡◌, ◌++◌, List, ℕ, [], length, None, Ok, OnOk, OnErr, IfOk, IfSome};
ghost use Rattle.delimited_framing.specs.Frame.{delimited_form};
ghost use Rattle.delimited_framing.specs.Splitter.{Held, Stands, Gives, fed_more};

use crate::frame::{Found, FrameFault, Next, find_frame};
use byte_pieces::Pieces;
use plain_values::NoMemory;
use std::alloc::Global;
use std::marker::Model;

/// Cuts a stream into its frames.
#[derive(Drop)]
pub struct Splitter {
    limit: u64,
    held: Pieces,
    fault: Option<FrameFault>,
}

impl Model for Splitter {
    ghost use Rattle.delimited_framing.specs.Splitter.{Held};

    ghost Value = { Held };

    ghost view = { λ s. record { limit = s.limit; rest = s.held; fault = s.fault } };
}

impl Splitter {
    /// Returns a splitter of frames of at most `limit` bytes.
    pub fn new(alloc: Global, limit: u64) -> Splitter
        ensures limit { result.limit ≡ limit }
        ensures stands { Stands [] [] result }
        ensures fault { result.fault ≡ None }
    {
        Splitter {
            limit,
            held: Pieces::new(alloc),
            fault: None,
        }
    }

    /// Takes the next piece of the stream, or nothing after a fault.
    ///
    /// # Errors
    ///
    /// Returns `NoMemory` if memory runs out. The splitter is then as it was.
    pub fn feed(&mut self, piece: &[u8]) -> Result<(), NoMemory>
        ensures ok { OnOk result ((fed : List ℕ) (given : List (List ℕ)) → Stands fed given self.old
            → Stands (fed_more self.old.fault fed piece.now) given self.new) }
        ensures after_bad { IfSome self.old.fault (λ _. result ≡ Ok tt) }
        ensures same { (self.new.limit ≡ self.old.limit) × (self.new.fault ≡ self.old.fault) }
        ensures err { OnErr result (self.new ≡ self.old) }
    {
        if self.fault.is_some() {
            return Ok(());
        }
        self.held.feed(piece)?;
        Ok(())
    }

    /// Returns the next frame, if all of it has come. A fault is returned as soon as the last byte of the length has
    /// come, and by each later call.
    ///
    /// # Errors
    ///
    /// Returns `NoMemory` if memory runs out. The splitter is then as it was.
    pub fn next(&mut self) -> Result<Next, NoMemory>
        ensures after_bad { IfSome self.old.fault (λ fault. result ≡ Ok (Next.Bad fault)) }
        ensures ok { IfOk result (λ next. (fed : List ℕ) (given : List (List ℕ))
            → Stands fed given self.old
            → Gives delimited_form fed given self.old next self.new) }
        ensures err { OnErr result (self.new ≡ self.old) }
    {
        if let Some(fault) = self.fault {
            return Ok(Next::Bad(fault));
        }
        let found = find_frame(&self.held, self.limit)?;
        match found {
            Found::Unfinished => Ok(Next::NotYet),
            Found::Bad(fault) => {
                self.fault = Some(fault);
                Ok(Next::Bad(fault))
            }
            Found::Whole { start, end } => {
                let frame = self.held.copy(start, end)?;
                self.held.drop_front(end);
                Ok(Next::Frame(frame))
            }
        }
    }

    /// Returns the number of bytes that were fed and not yet returned as part of a frame, its length included.
    pub fn unread(&self) -> usize
        ensures { result ≡ length self.now.rest }
    {
        self.held.len()
    }
}
