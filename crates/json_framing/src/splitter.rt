// The lines of a stream that comes in pieces.
ghost use Rattle.std.specs.Prelude.{◌≡◌, ◌≤◌, ◌++◌, List, ℕ, [], length, drop, None, Ok, OnOk, OnErr, IfOk, IfSome};
ghost use Rattle.delimited_framing.specs.Splitter.{Held, Gives, StandsFor, fed_more};
ghost use Rattle.json_framing.specs.Lines.{line_form, line_length};

use crate::line::{Found, find_line};
use byte_pieces::Pieces;
use delimited_framing::{FrameFault, Next};
use plain_values::NoMemory;
use std::alloc::Global;
use std::marker::Model;

/// Cuts a stream into its lines, and leaves out blank ones.
#[derive(Drop)]
pub struct LineSplitter {
    limit: u64,
    held: Pieces,
    looked: usize,
    fault: Option<FrameFault>,
}

impl Model for LineSplitter {
    ghost use Rattle.std.specs.Prelude.{◌≤◌};
    ghost use Rattle.delimited_framing.specs.Splitter.{Held};
    ghost use Rattle.json_framing.specs.Lines.{line_length};

    ghost Value = { Held };

    ghost view = { λ s. record {
      limit = s.limit;
      rest = s.held;
      fault = s.fault;
    } };

    // The part that was looked through holds no line feed.
    ghost invariant = { λ s. s.looked ≤ line_length s.held };
}

impl LineSplitter {
    /// Returns a splitter of lines of at most `limit` bytes.
    pub fn new(alloc: Global, limit: u64) -> LineSplitter
        ensures limit { result.limit ≡ limit }
        ensures stands { StandsFor line_form [] [] result }
        ensures fault { result.fault ≡ None }
    {
        LineSplitter {
            limit,
            held: Pieces::new(alloc),
            looked: 0,
            fault: None,
        }
    }

    /// Takes the next piece of the stream, or nothing after a fault.
    ///
    /// # Errors
    ///
    /// Returns `NoMemory` if memory runs out. The splitter is then as it was.
    pub fn feed(&mut self, piece: &[u8]) -> Result<(), NoMemory>
        ensures ok { OnOk result ((fed : List ℕ) (given : List (List ℕ))
            → StandsFor line_form fed given self.old
            → StandsFor line_form (fed_more self.old.fault fed piece.now) given self.new) }
        ensures after_bad { IfSome self.old.fault (λ _. result ≡ Ok tt) }
        ensures same { (self.new.limit ≡ self.old.limit) × (self.new.fault ≡ self.old.fault) }
        ensures err { OnErr result (self.new ≡ self.old) }
    {
        if self.fault.is_some() {
            return Ok(());
        }
        self.held.feed(piece)?;
        Ok(())
    }

    /// Returns the next line without its line feed, if all of it has come. A line that is too long is reported as soon
    /// as it is too long, and by each later call.
    ///
    /// # Errors
    ///
    /// Returns `NoMemory` if memory runs out. The splitter is then as it was.
    pub fn next(&mut self) -> Result<Next, NoMemory>
        ensures after_bad { IfSome self.old.fault (λ fault. result ≡ Ok (Next.Bad fault)) }
        ensures ok { IfOk result (λ next. (fed : List ℕ) (given : List (List ℕ))
            → StandsFor line_form fed given self.old
            → Gives line_form fed given self.old next self.new) }
        ensures err { OnErr result (self.new ≡ self.old) }
    {
        if let Some(fault) = self.fault {
            return Ok(Next::Bad(fault));
        }
        let unread = self.held.len();
        match find_line(&self.held, self.looked, self.limit) {
            Found::Unfinished { start } => {
                self.drop_read(start, unread - start);
                Ok(Next::NotYet)
            }
            Found::TooLong { start, length } => {
                let fault = FrameFault::TooLong { length };
                self.drop_read(start, 0);
                self.fault = Some(fault);
                Ok(Next::Bad(fault))
            }
            Found::Whole { start, end } => {
                let line = self.held.copy(start, end)?;
                self.drop_read(end + 1, 0);
                Ok(Next::Frame(line))
            }
        }
    }

    // Drops `count` more bytes, which were read. After them, `looked` bytes were looked through.
    fn drop_read(&mut self, count: usize, looked: usize)
        requires count { count ≤ length self.old.rest }
        requires looked { looked ≤ line_length (drop count self.old.rest) }
        ensures { self.new ≡ record self.old { rest = drop count self.old.rest } }
    {
        self.held.drop_front(count);
        self.looked = looked;
    }
}
