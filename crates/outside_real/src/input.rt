ghost use Rattle.std.specs.Prelude.{◌≡◌, ◌≤◌, None, Some, [], false, IfOk, length};

use crate::notes::Bytes;
use crate::output_flag::OutputFlag;
use crate::unended::LineWatch;
use bare_calls::{is_later, wait_for_input};
use outside::{Taken, Tap};
use std::io::{self, ErrorKind, Read};
use std::marker::Model;
use told_logs::Told;

/// The name of the input in reports.
const NAME: &str = "standard input";

/// Standard input, as a tap.
#[derive(Drop)]
pub struct RealInput<'a, I> {
    stdin: I,
    faults: u64,
    said: Told<u8>,
    has_ended: bool,
    service: Option<Service<'a>>,
}

impl<'a, I> Model for RealInput<'a, I> {
    ghost use Rattle.std.specs.Prelude.{None};
    ghost use Rattle.outside_real.specs.Telling.{TapSeen};

    ghost Value = { TapSeen };

    ghost view = { λ t. record {
      line = None;
      faults = t.faults;
      said = t.said.items;
      ended = t.has_ended;
    } };
}

// What a program that answers its input also needs.
#[derive(Drop)]
struct Service<'a> {
    output: &'a OutputFlag,
    line: LineWatch,
}

impl<'a, I> RealInput<'a, I> {
    /// Returns the standard input of the runtime.
    pub fn new(stdin: I) -> RealInput<'a, I>
        ensures faults { result.faults ≡ 0 }
        ensures said { result.said ≡ [] }
        ensures ended { result.ended ≡ false }
    {
        RealInput::of(stdin, None)
    }

    /// Same as `new`, for a program that answers what it reads. Once its output has failed each read fails, even one
    /// that waits, since nobody would get the answers. A read that waits for two seconds after whole JSON without a
    /// line feed reports so on standard error, once.
    pub fn answered(stdin: I, output: &'a OutputFlag) -> RealInput<'a, I>
        ensures faults { result.faults ≡ 0 }
        ensures said { result.said ≡ [] }
        ensures ended { result.ended ≡ false }
    {
        let line = LineWatch::new();
        RealInput::of(stdin, Some(Service { output, line }))
    }

    fn of(stdin: I, service: Option<Service<'a>>) -> RealInput<'a, I>
        ensures faults { result.faults ≡ 0 }
        ensures said { result.said ≡ [] }
        ensures ended { result.ended ≡ false }
    {
        RealInput {
            stdin,
            faults: 0,
            said: Told::new(),
            has_ended: false,
            service,
        }
    }
}

impl<I: Read + Drop> Tap for RealInput<'_, I> {
    ghost told = { λ t. record {
      line = None;
      faults = t.faults;
      taken = Some t.said;
      ended = Some t.ended;
    } };

    fn faults(&self) -> u64 {
        self.faults
    }

    fn read(&mut self, into: &mut [u8]) -> Taken {
        match take(&mut self.stdin, &mut self.service, into) {
            Ok(0) => {
                self.has_ended = true;
                Taken::End
            }
            Ok(count) => {
                let bytes = &into[..count];
                self.said = self.said.with(&Bytes { bytes });
                Taken::Bytes(count)
            }
            Err(_) => {
                self.faults = self.faults.saturating_add(1);
                Taken::Failed
            }
        }
    }
}

// Takes some bytes, and none at the end. If the input is non-blocking, this waits for it.
fn take<I: Read>(
    stdin: &mut I,
    service: &mut Option<Service<'_>>,
    into: &mut [u8],
) -> io::Result<usize>
    ensures { IfOk result (λ n. n ≤ length into.new) }
{
    for _ in 0..u64::MAX {
        if let Some(service) = service {
            service.wait()?;
        }
        match stdin.read(into) {
            Err(error) if is_later(&error) => drop(wait_for_input()),
            Ok(count) => {
                if let Some(service) = service {
                    service.line.follow(&into[..count]);
                }
                return Ok(count);
            }
            Err(error) => return Err(error),
        }
    }
    Ok(0)
}

impl Service<'_> {
    // Waits until there is something to read. If the input can't be waited for, this returns and the read reports why.
    fn wait(&mut self) -> io::Result<()> {
        for _ in 0..u64::MAX {
            if self.output.has_failed() {
                return Err(io::Error::from(ErrorKind::BrokenPipe));
            }
            if wait_for_input().unwrap_or(true) {
                break;
            }
            self.line.pass(NAME);
        }
        Ok(())
    }
}
