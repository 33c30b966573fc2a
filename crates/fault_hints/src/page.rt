// The lines that are gathered.
ghost use Rattle.std.specs.Prelude.{string_bytes};
ghost use Rattle.fault_hints.specs.Lines.{AreBehind};

use plain_values::NoMemory;
use std::alloc::Global;

/// The lines so far.
#[derive(Drop)]
pub struct Page {
    text: String,
    ghost behind: { AreBehind (string_bytes text) },
}

impl Page {
    pub fn new(alloc: Global) -> Page {
        Page {
            text: String::new(alloc),
        }
    }

    /// Adds a line after two spaces. A string of more than one line is left out.
    pub fn add(&mut self, alloc: Global, line: &str) -> Result<(), NoMemory> {
        if line.as_bytes().contains(&b'\n') {
            return Ok(());
        }
        let line = format!(in alloc; "  {line}\n")?;
        self.text.push_str(line.as_str())?;
        Ok(())
    }

    /// Returns the whole text.
    pub fn text(self) -> String
        ensures { AreBehind (string_bytes result) }
    {
        self.text
    }
}
