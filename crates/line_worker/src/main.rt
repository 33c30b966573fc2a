//! A worker that counts lines, and answers four requests at once. It is the example from which you make
//! your own worker. The arguments of a request are the path of its output, followed by the files whose
//! lines are counted.
#![tactic(auto)]

ghost use Rattle.std.specs.Prelude.{◌≡◌, ◌⊎◌, false, IfOk, pos};

use outside::{Io, Read, Shop};
use outside_real::{OutputFlag, RealInput, RealShop, RealSink, open_standard, tell_about};
use plain_values::{NoMemory, Text};
use std::alloc::Global;
use std::process::ExitCode;
use std::sync::{Mutex, Wait};
use wire_messages::WorkRequest;
use worker_kit::{Delimited, Flag, Handled, Handler, KitEnd, Size, Streams, serve};

const HELP: &str = "line_worker --persistent_worker

A worker that counts lines, up to four requests at once. The words of a request are the path of its output, and then those of the
files whose lines are counted. It is an example: crates/line_worker is to be copied for a worker of one's own.

  --help, --version    alone: this text, or the version
";

/// A counter of lines in the files of a shop, which all lanes share.
#[derive(Drop)]
struct LineCounter<S> {
    shop: Mutex<S>,
}

impl<S: Shop + Send> Handler for LineCounter<S> {
    ghost answers = { λ request handled. (handled.exit ≡ pos 0) ⊎ (handled.exit ≡ pos 1) };

    fn handle<R: Wait, F: Flag>(
        &self,
        rt: &R,
        alloc: Global,
        request: &WorkRequest,
        flag: &mut F,
    ) -> Result<Handled, NoMemory> {
        let mut words = request.arguments.as_slice().iter();
        let Some(output) = words.next() else {
            return ended(alloc, 1, "no output is named\n");
        };
        let mut count: u64 = 0;
        for word in words {
            if flag.is_raised(rt)? {
                return stopped(alloc);
            }
            let path = placed(alloc, request, word)?;
            let found = self.shop.lock(rt).get(&path)?;
            match found {
                Read::Found(file) => count = count.saturating_add(lines_of(file.bytes())),
                Read::Absent | Read::Failed => {
                    let text = format!(in alloc; "can't be read: {}\n", word.as_str())?;
                    return ended(alloc, 1, &text);
                }
            }
        }
        let text = format!(in alloc; "{count}\n")?;
        let path = placed(alloc, request, output)?;
        let put = self.shop.lock(rt).put(&path, text.as_bytes());
        match put {
            Io::Done => ended(alloc, 0, &text),
            Io::Failed => ended(alloc, 1, "the output can't be written\n"),
        }
    }
}

// Returns the path of a request's file: in the request's own folder, if it has one.
fn placed(alloc: Global, request: &WorkRequest, path: &Text) -> Result<String, NoMemory> {
    match request.sandbox_dir.as_str() {
        "" => Ok(String::from_str(alloc, path.as_str())?),
        folder => Ok(format!(in alloc; "{folder}/{}", path.as_str())?),
    }
}

fn lines_of(bytes: &[u8]) -> u64 {
    bytes.iter().filter(|byte| **byte == b'\n').count() as u64
}

fn ended(alloc: Global, exit: i32, text: &str) -> Result<Handled, NoMemory>
    ensures exit { IfOk result (λ handled. handled.exit ≡ exit) }
    ensures whole { IfOk result (λ handled. handled.stopped ≡ false) }
{
    Ok(Handled {
        exit,
        output: Text::of(String::from_str(alloc, text)?),
        stopped: false,
    })
}

fn stopped(alloc: Global) -> Result<Handled, NoMemory>
    ensures { IfOk result (λ handled. handled.exit ≡ pos 1) }
{
    Ok(Handled {
        exit: 1,
        output: Text::of(String::new(alloc)),
        stopped: true,
    })
}

fn main(rt: HostRuntime) -> ExitCode {
    open_standard();
    if let Some(status) = tell_about(&rt, "line_worker", &[HELP]) {
        return status;
    }
    let alloc = rt.alloc();
    let counter = LineCounter {
        shop: Mutex::new(RealShop::for_worker(rt, alloc, 0)),
    };
    let output = OutputFlag::new();
    let streams = Streams {
        tap: RealInput::answered(rt.stdin(), &output),
        sink: RealSink::flagged(rt, &output),
    };
    let size = Size {
        handlers: 4,
        depth: 1_024,
    };
    let end = match serve(&rt, alloc, &Delimited, streams, size, &counter) {
        Ok(ended) => ended.end,
        Err(_) => KitEnd::NoMemory,
    };
    ExitCode::from(end.status())
}
