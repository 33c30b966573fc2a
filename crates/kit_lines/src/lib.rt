//! A worker's requests and responses as JSON lines.
#![tactic(auto)]

ghost use Rattle.std.specs.Prelude.{◌≡◌};
ghost use Rattle.json_framing.specs.declared.cutter.Framing.TheVariants as framing;
ghost use Rattle.kit_lines.specs.Lines.{SpellsLine, as_line};

use json_framing::Framing;
use json_messages::{read_request_line, response_line};
use plain_values::NoMemory;
use std::alloc::Global;
use wire_messages::{MessageFault, WorkRequest, WorkResponse};
use worker_kit::Speech;

/// JSON with one message a line.
pub struct Lines;

impl Speech for Lines {
    ghost framing = { framing.Lines };

    ghost spells = { SpellsLine };

    ghost written = { as_line };

    fn framing() -> Framing {
        Framing::Lines
    }

    fn read(alloc: Global, frame: &[u8]) -> Result<Option<WorkRequest>, NoMemory> {
        match read_request_line(alloc, frame) {
            Ok(request) => Ok(Some(request)),
            Err(fault) => match fault {
                MessageFault::NoMemory => Err(NoMemory),
                _ => Ok(None),
            },
        }
    }

    fn write(alloc: Global, response: &WorkResponse) -> Result<Vec<u8>, NoMemory> {
        response_line(alloc, response)
    }
}
