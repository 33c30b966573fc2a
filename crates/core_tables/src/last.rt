// Facts about the last line of each berth, in addition to those in the pool.
ghost use Rattle.std.specs.Prelude.{◌≡◌, ◌<◌, ◌^◌, length, IfOk, replicate, slice_get, Some};
ghost use Rattle.core_tables.specs.Last.{no_line, set_launched, set_taken, set_cause, set_fed};
ghost use Rattle.list_lemmas.specs.Places.{update};

use exec_journal::{Attempt, Cause};
use plain_values::NoMemory;
use std::alloc::Global;
use std::marker::Model;

/// The record of a berth's last line: the attempt for which it was launched, whether a tap lane was
/// given it, and the cause of its first break. `fed` is the attempt whose request could not be
/// written because of a fault of the line's feed.
#[derive(Clone, Copy)]
pub struct LastLine {
    pub attempt: Option<Attempt>,
    pub taken: bool,
    pub cause: Option<Cause>,
    pub fed: Option<Attempt>,
}

#[derive(Drop)]
pub struct LastLines {
    rows: Vec<LastLine>,
}

impl Model for LastLines {
    ghost use Rattle.std.specs.Prelude.{List};
    ghost use Rattle.core_tables.specs.declared.last.LastLine.{LastLine};

    ghost Value = { List LastLine };

    ghost view = { λ a. a.rows.items };
}

impl LastLines {
    pub fn new(alloc: Global, berths: usize) -> Result<LastLines, NoMemory>
        ensures { IfOk result (λ t. t ≡ replicate berths no_line) }
    {
        let none = LastLine {
            attempt: None,
            taken: false,
            cause: None,
            fed: None,
        };
        let rows = vec![in alloc; none; berths]?;
        Ok(LastLines { rows })
    }

    pub fn len(&self) -> u32
        requires { length self.now < 2 ^ 32 }
        ensures { result ≡ length self.now }
    {
        self.rows.len() as u32
    }

    pub fn of(&self, berth: u32) -> LastLine
        requires { berth < length self.now }
        ensures { slice_get self.now berth ≡ Some result }
    {
        self.rows[berth as usize]
    }

    /// Notes that the berth has a new last line, launched for this attempt.
    pub fn launched(&mut self, berth: u32, attempt: Attempt)
        requires { berth < length self.old }
        ensures { self.new ≡ update (set_launched attempt) self.old berth }
    {
        self.rows[berth as usize] = LastLine {
            attempt: Some(attempt),
            taken: false,
            cause: None,
            fed: None,
        };
    }

    pub fn taken(&mut self, berth: u32)
        requires { berth < length self.old }
        ensures { self.new ≡ update set_taken self.old berth }
    {
        let row = self.rows[berth as usize];
        self.rows[berth as usize] = LastLine { taken: true, ..row };
    }

    /// Notes that the line broke with this cause, unless it broke before.
    pub fn broke(&mut self, berth: u32, cause: Cause)
        requires { berth < length self.old }
        ensures { self.new ≡ update (set_cause cause) self.old berth }
    {
        let row = self.rows[berth as usize];
        self.rows[berth as usize] = row.with_cause(cause);
    }

    pub fn fed(&mut self, berth: u32, attempt: Attempt)
        requires { berth < length self.old }
        ensures { self.new ≡ update (set_fed attempt) self.old berth }
    {
        let row = self.rows[berth as usize];
        self.rows[berth as usize] = LastLine {
            fed: Some(attempt),
            ..row
        };
    }
}

impl LastLine {
    fn with_cause(self, cause: Cause) -> LastLine
        ensures { result ≡ set_cause cause self }
    {
        match self.cause {
            Some(_) => self,
            None => LastLine {
                cause: Some(cause),
                ..self
            },
        }
    }
}
