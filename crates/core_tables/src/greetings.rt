// The messages of each berth's last line.
ghost use Rattle.std.specs.Prelude.{◌≡◌, ◌<◌, length, IfOk, replicate, slice_get, Some};
ghost use Rattle.core_tables.specs.Greetings.{silent, said_by, with_said};

use exec_journal::{Call, Reply};
use plain_values::NoMemory;
use std::alloc::Global;
use std::marker::Model;

/// The messages of a berth's last line: whether an answer of it came, and whether one was a
/// greeting.
#[derive(Clone, Copy)]
pub struct Greeting {
    pub spoken: bool,
    pub greeted: bool,
}

/// The messages of each berth's last line. A contract sees them as a list, by berth.
#[derive(Drop)]
pub struct Greetings {
    rows: Vec<Greeting>,
}

impl Model for Greetings {
    ghost use Rattle.std.specs.Prelude.{List};
    ghost use Rattle.core_tables.specs.declared.greetings.Greeting.{Greeting};

    ghost Value = { List Greeting };

    ghost view = { λ a. a.rows.items };
}

impl Greetings {
    /// Creates the table of a run before any call. No other call takes memory.
    ///
    /// # Errors
    ///
    /// Returns `NoMemory` if memory runs out.
    pub fn new(alloc: Global, berths: usize) -> Result<Greetings, NoMemory>
        ensures { IfOk result (λ t. t ≡ replicate berths silent) }
    {
        let silent = Greeting {
            spoken: false,
            greeted: false,
        };
        let rows = vec![in alloc; silent; berths]?;
        Ok(Greetings { rows })
    }

    /// Returns the record of the berth's last line.
    pub fn of(&self, berth: u32) -> Greeting
        requires { berth < length self.now }
        ensures { slice_get self.now berth ≡ Some result }
    {
        self.rows[berth as usize]
    }

    /// Notes an entry of a lane of the berth.
    pub fn note(&mut self, berth: u32, call: &Call, reply: &Reply)
        requires { berth < length self.old }
        ensures { self.new ≡ with_said self.old berth call.now reply.now }
    {
        let row = self.rows[berth as usize];
        self.rows[berth as usize] = row.after(call, reply);
    }
}

impl Greeting {
    // Returns the record after this entry. A new line has sent nothing. An answer is a message, and
    // may be a greeting.
    fn after(self, call: &Call, reply: &Reply) -> Greeting
        ensures { result ≡ said_by call.now reply.now self }
    {
        match call {
            Call::Answer { .. } => Greeting {
                spoken: true,
                greeted: matches!(reply, Reply::Greeted) || self.greeted,
            },
            _ if matches!(reply, Reply::Launch { .. }) => Greeting {
                spoken: false,
                greeted: false,
            },
            _ => self,
        }
    }
}
