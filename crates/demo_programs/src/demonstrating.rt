// The demonstration worker, as a worker or for one command.
ghost use Rattle.std.specs.Prelude.{◌≡◌, true, false, length, map, string_bytes};
ghost use Rattle.work_lanes.specs.Serves.{AreHandlers};
ghost use Rattle.demo_programs.specs.Demo.{Demonstrates, DoesOnce, DoesOnceAt, Works, ended, is_word, told_at};

use crate::site::{DemoEnd, DemoLeft, DemoSite};
use demo_worker::{Answer, RequestLines, run_once};
use message_service::{Finish, serve};
use outside::{Io, Shop, Sink, Tap};
use plain_values::NoMemory;
use std::alloc::Global;
use std::sync::Wait;
use std::thread::Threads;
use worker_kit::{Delimited, EachEnded, Streams, Unbegun, serve_each};

/// The number of requests that may wait.
const DEPTH: u32 = 64;

/// Copies files of shops, as its arguments or requests specify. Without `--persistent_worker` among the
/// arguments, the arguments are one command, and its text is written. With it, the input contains commands
/// as requests. Each is answered by a response:
///
/// - with `--json`, as lines, one after another in order;
/// - otherwise in the binary form of Protocol Buffers, preceded by their lengths, in any order. Each lane
///   answers one request at a time. The log of each lane's shop gains the calls of the commands that the
///   lane took, one after another, each once, and nothing else.
///
/// It reports lack of memory by the status, even if nothing has begun.
pub fn demo<T: Tap + Send, O: Sink + Send, S: Shop + Send, R: Threads + Wait + Sync>(
    rt: &R,
    alloc: Global,
    words: &[String],
    site: DemoSite<T, O, S>,
) -> DemoLeft<T, O, S>
    requires { AreHandlers (length site.lanes.items) }
    ensures { Demonstrates S.told (map string_bytes words.now) result.end
        (told_at T.told O.told S.told site) (told_at T.told O.told S.told result.site)
        site.lanes.items result.site.lanes.items }
{
    if !is_word("--persistent_worker", words) {
        return once_at(alloc, words, site);
    }
    if is_word("--json", words) {
        in_order(rt, alloc, site)
    } else {
        at_once(rt, alloc, site)
    }
}

// Answers the lines of the input, one after another.
fn in_order<T: Tap, O: Sink, S: Shop, R: Wait>(
    rt: &R,
    alloc: Global,
    site: DemoSite<T, O, S>,
) -> DemoLeft<T, O, S>
    ensures { (f : Finish) × (result.end ≡ ended f) × Works S.told true f
        (told_at T.told O.told S.told site) (told_at T.told O.told S.told result.site)
        site.lanes.items result.site.lanes.items }
{
    let DemoSite {
        input,
        out,
        shop,
        lanes,
    } = site;
    let mut input = input;
    let mut out = out;
    let mut shop = shop;
    let finish = serve(rt, alloc, &RequestLines, &mut input, &mut out, &mut shop);
    DemoLeft {
        end: DemoEnd::of(finish),
        site: DemoSite {
            input,
            out,
            shop,
            lanes,
        },
    }
}

// Answers the messages of the input, many at once.
fn at_once<T: Tap + Send, O: Sink + Send, S: Shop + Send, R: Threads + Wait + Sync>(
    rt: &R,
    alloc: Global,
    site: DemoSite<T, O, S>,
) -> DemoLeft<T, O, S>
    requires { AreHandlers (length site.lanes.items) }
    ensures { (f : Finish) × (result.end ≡ ended f) × Works S.told false f
        (told_at T.told O.told S.told site) (told_at T.told O.told S.told result.site)
        site.lanes.items result.site.lanes.items }
{
    let DemoSite {
        input,
        out,
        shop,
        lanes,
    } = site;
    let streams = Streams {
        tap: input,
        sink: out,
    };
    match serve_each(rt, alloc, &Delimited, streams, DEPTH, lanes) {
        Ok(ended) => {
            let EachEnded {
                end,
                tap,
                sink,
                handlers,
            } = ended;
            DemoLeft {
                end: DemoEnd::of_kit(end),
                site: DemoSite {
                    input: tap,
                    out: sink,
                    shop,
                    lanes: handlers,
                },
            }
        }
        Err(unbegun) => {
            let Unbegun { streams, handlers } = unbegun;
            let Streams { tap, sink } = streams;
            DemoLeft {
                end: DemoEnd::of(Finish::NoMemory),
                site: DemoSite {
                    input: tap,
                    out: sink,
                    shop,
                    lanes: handlers,
                },
            }
        }
    }
}

// Runs the arguments as one command.
fn once_at<T: Tap, O: Sink, S: Shop>(
    alloc: Global,
    words: &[String],
    site: DemoSite<T, O, S>,
) -> DemoLeft<T, O, S>
    ensures does { DoesOnceAt (map string_bytes words.now) result.end
        (told_at T.told O.told S.told site) (told_at T.told O.told S.told result.site) }
    ensures lanes { result.site.lanes.items ≡ site.lanes.items }
{
    let DemoSite {
        input,
        out,
        shop,
        lanes,
    } = site;
    let mut out = out;
    let mut shop = shop;
    let end = match once(alloc, words, &mut out, &mut shop) {
        Ok(exit) => DemoEnd {
            status: exit,
            exit: Some(exit),
        },
        Err(finish) => DemoEnd::of(finish),
    };
    DemoLeft {
        end,
        site: DemoSite {
            input,
            out,
            shop,
            lanes,
        },
    }
}

// Runs the arguments as one command, writes its text, and returns the exit code.
fn once<O: Sink, S: Shop>(
    alloc: Global,
    words: &[String],
    out: &mut O,
    shop: &mut S,
) -> Result<u8, Finish>
    ensures { DoesOnce (map string_bytes words.now) result (O.told out.old) (O.told out.new)
        (S.told shop.old) (S.told shop.new) }
{
    match run_once(alloc, shop, words) {
        Ok(Answer { exit_code, text }) => match out.put(text.as_str().as_bytes()) {
            Io::Done => Ok(exit_code),
            Io::Failed => Err(Finish::OutputFault),
        },
        Err(NoMemory) => Err(Finish::NoMemory),
    }
}

fn is_word(wanted: &str, words: &[String]) -> bool
    ensures { result ≡ is_word wanted.now (map string_bytes words.now) }
{
    for word in words {
        if word.as_str() == wanted {
            return true;
        }
    }
    false
}
