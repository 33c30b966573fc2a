ghost use Rattle.std.specs.Prelude.{◌≡◌, [], Some, IfOk, option_map, false};

use crate::calls::Calls;
use crate::line::Line;
use crate::notes::{note, note_end};
use crate::{Files, Gates, MemChild, MemFeed, MemTap, Object, Script};
use outside::{Berth, BerthCall, Child, Command, Io, Launch, Read};
use plain_values::{Blob, NoMemory, Text};
use std::alloc::Global;
use std::sync::{Arc, Mutex, Wait};

/// The argument of a command whose child is an executor.
const SERVE: &str = "--serve";

/// A berth in memory. It records its calls, unless memory ran out for an entry.
#[derive(Drop)]
pub struct MemBerth<R> {
    rt: R,
    alloc: Global,
    script: Arc<Script>,
    gates: Arc<Gates>,
    room: Arc<Mutex<Files>>,
    number: u32,
    /// `None` once memory ran out for a failed call's entry.
    log: Option<Vec<BerthCall>>,
    calls: CallsOfBerth,
    faults: u64,
}

/// The number of calls of each kind.
#[derive(Clone, Copy)]
struct CallsOfBerth {
    launches: Calls,
    clears: Calls,
    folders: Calls,
    puts: Calls,
    gets: Calls,
}

impl<R: Drop> MemBerth<R> {
    /// Returns the berth with this number. Its room is empty.
    ///
    /// # Errors
    ///
    /// Returns `NoMemory` if memory runs out.
    pub fn new(
        rt: R,
        alloc: Global,
        script: Arc<Script>,
        gates: Arc<Gates>,
        number: u32,
    ) -> Result<MemBerth<R>, NoMemory>
        ensures number { IfOk result (λ b. b.number ≡ number) }
        ensures log { IfOk result (λ b. option_map (λ v. v.items) b.log ≡ Some []) }
        ensures faults { IfOk result (λ b. b.faults ≡ 0) }
    {
        Ok(MemBerth {
            rt,
            alloc,
            script,
            gates,
            room: Arc::new(alloc, Mutex::new(Files::new(alloc)))?,
            number,
            log: Some(Vec::new(alloc)),
            calls: CallsOfBerth {
                launches: Calls::new(),
                clears: Calls::new(),
                folders: Calls::new(),
                puts: Calls::new(),
                gets: Calls::new(),
            },
            faults: 0,
        })
    }

    /// Returns the calls so far, or `None` if memory ran out for an entry.
    pub fn log(&self) -> Option<&[BerthCall]> {
        match &self.log {
            Some(log) => Some(log),
            None => None,
        }
    }
}

// Returns true if the command makes its child an executor.
fn serves(command: &Command) -> bool {
    command
        .words
        .as_slice()
        .iter()
        .any(|word| word.as_str() == SERVE)
}

fn put_call(alloc: Global, path: &str, content: &Blob, end: Io) -> Result<BerthCall, NoMemory>
    ensures { IfOk result (λ c. c ≡ BerthCall.Put path.now content.now end) }
{
    Ok(BerthCall::Put {
        path: Text::copy_of(alloc, path)?,
        bytes: content.again()?,
        end,
    })
}

fn folder_call(alloc: Global, path: &str, end: Io) -> Result<BerthCall, NoMemory>
    ensures { IfOk result (λ c. c ≡ BerthCall.Folder path.now end) }
{
    Ok(BerthCall::Folder {
        path: Text::copy_of(alloc, path)?,
        end,
    })
}

fn clear_call(alloc: Global, part: &str, end: Io) -> Result<BerthCall, NoMemory>
    ensures { IfOk result (λ c. c ≡ BerthCall.Clear part.now end) }
{
    Ok(BerthCall::Clear {
        part: Text::copy_of(alloc, part)?,
        end,
    })
}

impl<R: Wait + Clone + Drop> MemBerth<R> {
    // Makes the objects of a new line, with the state that they share.
    fn start(
        &self,
        line: u32,
        serves: bool,
    ) -> Result<(MemFeed<R>, MemTap<R>, MemChild<R>), NoMemory>
        ensures feed { IfOk result (λ l. (l.0.line ≡ line) × (l.0.given.items ≡ [])
            × (l.0.faults ≡ 0)) }
        ensures tap { IfOk result (λ l. (l.1.line ≡ line) × (l.1.taken.items ≡ [])
            × (l.1.ended ≡ false) × (l.1.faults ≡ 0)) }
        ensures child { IfOk result (λ l. (l.2.line ≡ line) × (l.2.kills ≡ Some 0)) }
    {
        let shared = self.shared(serves)?;
        let feed = self.feed(line, &shared)?;
        let tap = self.tap(line, &shared)?;
        let rt = self.rt.clone()?;
        Ok((feed, tap, MemChild::new(rt, shared, line)))
    }

    fn shared(&self, serves: bool) -> Result<Arc<Line>, NoMemory> {
        let gates = Arc::try_clone(&self.gates)?;
        let room = Arc::try_clone(&self.room)?;
        Ok(Arc::new(self.alloc, Line::new(self.alloc, gates, room, serves))?)
    }

    fn feed(&self, line: u32, shared: &Arc<Line>) -> Result<MemFeed<R>, NoMemory>
        ensures { IfOk result (λ f. (f.line ≡ line) × (f.given.items ≡ []) × (f.faults ≡ 0)) }
    {
        let rt = self.rt.clone()?;
        let script = Arc::try_clone(&self.script)?;
        let shared = Arc::try_clone(shared)?;
        Ok(MemFeed::new(rt, self.alloc, script, shared, line))
    }

    fn tap(&self, line: u32, shared: &Arc<Line>) -> Result<MemTap<R>, NoMemory>
        ensures { IfOk result (λ t. (t.line ≡ line) × (t.taken.items ≡ [])
            × (t.ended ≡ false) × (t.faults ≡ 0)) }
    {
        let rt = self.rt.clone()?;
        let script = Arc::try_clone(&self.script)?;
        let shared = Arc::try_clone(shared)?;
        Ok(MemTap::new(rt, self.alloc, script, shared, line))
    }
}

impl<R: Wait + Clone + Drop> Berth for MemBerth<R> {
    type Feed = MemFeed<R>;

    type Tap = MemTap<R>;

    type Child = MemChild<R>;

    ghost told = { λ b. record {
      number = b.number;
      faults = b.faults;
      log = option_map
          (λ v. v.items) b.log;
    } };

    fn faults(&self) -> u64 {
        self.faults
    }

    fn launch(
        &mut self,
        line: u32,
        command: &Command,
    ) -> Result<Launch<MemFeed<R>, MemTap<R>, MemChild<R>>, NoMemory> {
        let on = Object::Launch(self.number);
        let fails = self.calls.launches.fails_now(&self.script.fails, on);
        let serves = serves(command);
        let command = command.again(self.alloc)?;
        if fails {
            note(
                &mut self.log,
                BerthCall::Launch {
                    line,
                    command,
                    end: Io::Failed,
                },
            )?;
            self.faults = self.faults.saturating_add(1);
            return Ok(Launch::Failed);
        }
        let (feed, tap, child) = self.start(line, serves)?;
        note(
            &mut self.log,
            BerthCall::Launch {
                line,
                command,
                end: Io::Done,
            },
        )?;
        Ok(Launch::Started(feed, tap, child))
    }

    fn room_clear(&mut self, part: &str) -> Io {
        let on = Object::Clear(self.number);
        let fails = self.calls.clears.fails_now(&self.script.fails, on);
        if !fails {
            self.room.lock(&self.rt).clear(part);
        }
        let end = if fails { Io::Failed } else { Io::Done };
        let noted = note_end(&mut self.log, clear_call(self.alloc, part, end));
        if fails || !noted {
            self.faults = self.faults.saturating_add(1);
            return Io::Failed;
        }
        Io::Done
    }

    fn room_folder(&mut self, path: &str) -> Io {
        let on = Object::Folder(self.number);
        let fails = self.calls.folders.fails_now(&self.script.fails, on);
        let end = if fails { Io::Failed } else { Io::Done };
        let noted = note_end(&mut self.log, folder_call(self.alloc, path, end));
        if fails || !noted {
            self.faults = self.faults.saturating_add(1);
            return Io::Failed;
        }
        Io::Done
    }

    fn room_put(&mut self, path: &str, content: &Blob) -> Io {
        let on = Object::Put(self.number);
        let fails = self.calls.puts.fails_now(&self.script.fails, on)
            || put_file(&self.rt, &self.room, path, content).is_err();
        let end = if fails { Io::Failed } else { Io::Done };
        let noted = note_end(&mut self.log, put_call(self.alloc, path, content, end));
        if fails || !noted {
            self.faults = self.faults.saturating_add(1);
            return Io::Failed;
        }
        Io::Done
    }

    fn room_get(&mut self, path: &str) -> Result<Read, NoMemory> {
        let on = Object::Get(self.number);
        let fails = self.calls.gets.fails_now(&self.script.fails, on);
        let answer = if fails {
            Read::Failed
        } else {
            self.room.lock(&self.rt).get(path)?
        };
        let noted = BerthCall::Get {
            path: Text::copy_of(self.alloc, path)?,
            answer: answer.again()?,
        };
        note(&mut self.log, noted)?;
        if matches!(answer, Read::Failed) {
            self.faults = self.faults.saturating_add(1);
        }
        Ok(answer)
    }

    fn end(&mut self, line: u32, child: &mut MemChild<R>) {
        child.kill();
        if note(&mut self.log, BerthCall::End { line }).is_err() {
            self.log = None;
        }
    }
}

fn put_file<R: Wait>(
    rt: &R,
    room: &Mutex<Files>,
    path: &str,
    content: &Blob,
) -> Result<(), NoMemory> {
    room.lock(rt).put(path, content.again()?)
}
