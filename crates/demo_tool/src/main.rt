//! A small tool for trials of lists. It copies files below the start folder, as its arguments or the
//! requests on its standard input specify.
#![tactic(auto)]

ghost use Rattle.std.specs.Prelude.{◌≡◌, length, IfOk};

use demo_programs::{DemoLane, DemoSite, demo};
use outside_real::{OutputFlag, RealInput, RealShop, RealSink, open_standard};
use plain_values::NoMemory;
use std::alloc::Global;
use std::env::{self, Env};
use std::io::{self, ErrorKind};
use std::process::ExitCode;

/// The status if an argument isn't UTF-8.
const WRONG_WORDS: u8 = 2;

/// The status if memory runs out, for the arguments or for the first steps.
const NO_MEMORY: u8 = 3;

const USAGE: &str = "demo_tool: words are not accepted
  demo_tool [--in=PATH].. [--out=PATH] [--exit=N] [@PATH]..
  demo_tool --persistent_worker [--json]
";

fn main(rt: HostRuntime) -> ExitCode {
    open_standard();
    let alloc = rt.alloc();
    let words = match words(&rt, alloc) {
        Ok(words) => words,
        Err(error) => return end_unread(&rt, &error),
    };
    let Ok(lanes) = lanes_of(rt, alloc) else {
        return ExitCode::from(NO_MEMORY);
    };
    let output = OutputFlag::new();
    let site = DemoSite {
        input: RealInput::answered(rt.stdin(), &output),
        out: RealSink::flagged(rt, &output),
        shop: RealShop::for_worker(rt, alloc, 0),
        lanes,
    };
    let left = demo(&rt, alloc, &words, site);
    ExitCode::from(left.end.status)
}

// Returns four lanes over the start folder, so that four messages are answered at once.
fn lanes_of<R: Copy>(rt: R, alloc: Global) -> Result<Vec<DemoLane<RealShop<R>>>, NoMemory>
    ensures { IfOk result (λ lanes. length lanes.items ≡ 4) }
{
    let mut lanes = Vec::new(alloc);
    lanes.push(lane(rt, alloc, 0))?;
    lanes.push(lane(rt, alloc, 1))?;
    lanes.push(lane(rt, alloc, 2))?;
    lanes.push(lane(rt, alloc, 3))?;
    Ok(lanes)
}

// Returns the lane with this number, which has a shop of its own.
fn lane<R: Copy>(rt: R, alloc: Global, number: u32) -> DemoLane<RealShop<R>> {
    DemoLane {
        shop: RealShop::for_worker(rt, alloc, number),
    }
}

fn words(rt: &(impl Env + AllocGlobal), alloc: Global) -> io::Result<Vec<String>> {
    let mut words = Vec::new(alloc);
    for word in env::args(rt)?.skip(1) {
        words.push(word)?;
    }
    Ok(words)
}

// Ends if the arguments weren't read, because memory ran out or one of them isn't UTF-8.
fn end_unread(rt: &impl Eprint, error: &io::Error) -> ExitCode {
    match error.kind() {
        ErrorKind::OutOfMemory => ExitCode::from(NO_MEMORY),
        _ => {
            let _ = rt.eprint(USAGE);
            ExitCode::from(WRONG_WORDS)
        }
    }
}
