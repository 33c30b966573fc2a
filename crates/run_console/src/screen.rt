// The line on the terminal that shows a run's progress.
use crate::names::action_names;
use outside::{Floor, Io, Sink};
use plain_values::NoMemory;
use run_progress::{Look, Notes, Oldest, Progress, Watcher};
use std::alloc::{AllocError, Global};
use std::env::{self, Env};
use std::io::Eprint;
use std::sync::{Arc, Mutex, Wait};
use std::thread;
use std::thread::{JoinHandle, Parker, Threads};
use std::time::{Clock, Duration};

/// The time, in milliseconds, after which the line is written again.
const PAUSE: u64 = 200;

/// Erases everything from the start of the row on. The cursor is in an empty row above the line. A worker's output on
/// the same terminal goes there.
const ERASE: &str = "\r\x1b[J";

/// Goes to the row below. From there on nothing is carried over into the next row.
const BEGIN: &str = "\n\x1b[?7l";

/// Goes back to the start of the row above.
const END: &str = "\x1b[?7h\x1b[A\r";

/// The number of seconds after which the line reports that an action has no answer yet.
const LONG: u64 = 10;

/// A terminal whose last line shows a run's progress, with the thread that writes the line.
#[derive(Drop)]
pub struct Screen {
    line: Arc<Line>,
    watcher: JoinHandle<()>,
}

/// The line.
#[derive(Drop)]
pub struct Line {
    progress: Arc<Progress>,
    // A thread that holds it may write. It is true if the line is shown.
    pen: Mutex<bool>,
    // The watcher rests here.
    rest: Parker,
    // The actions' names, in the list's order, as far as they could be read.
    names: Vec<String>,
}

/// A sink that erases the line before it writes, since its bytes may go to the same terminal.
#[derive(Drop)]
pub struct BehindLine<'a, R, O> {
    pub rt: R,
    pub line: &'a Line,
    pub out: O,
}

impl Screen {
    /// Begins to show a line, with these names for the actions. Returns `None` if there is no memory or no thread for
    /// it.
    pub fn open<R: Threads + Wait + Clock + Eprint + Copy + Drop + Send + 'static>(
        rt: R,
        alloc: Global,
        names: Vec<String>,
    ) -> Option<Screen> {
        let line = Arc::new(alloc, Line::new(alloc, names)?).ok()?;
        let shown = Arc::try_clone(&line).ok()?;
        let watcher = thread::spawn(&rt, move || shown.show(&rt, alloc)).ok()?;
        Some(Screen { line, watcher })
    }

    /// Begins to show a line with the names of the actions of the list that these words name. Returns `None` if there is
    /// no memory or no thread for it.
    pub fn of_list<R: Threads + Wait + Clock + Eprint + Copy + Drop + Send + 'static>(
        rt: R,
        alloc: Global,
        words: &[String],
        floor: &mut impl Floor,
    ) -> Option<Screen> {
        Screen::open(rt, alloc, action_names(alloc, words, floor).ok()?)
    }

    /// Returns the notes in which the run should record its progress.
    pub fn notes(&self) -> Notes {
        self.line.notes()
    }

    /// Returns a sink that erases the line before it writes to `out`, which may be the same terminal.
    pub fn before<R, O>(&self, rt: R, out: O) -> BehindLine<'_, R, O> {
        BehindLine {
            rt,
            line: &self.line,
            out,
        }
    }

    /// Erases the line, and ends the thread that writes it.
    pub fn close<R: Threads + Wait + Eprint>(self, rt: &R) {
        self.line.close(rt);
        self.watcher.join(rt);
    }
}

/// Returns true if the terminal can only print, so that no line can be shown.
pub fn is_dumb(rt: &(impl Env + AllocGlobal)) -> bool {
    matches!(env::var(rt, "TERM"), Ok(kind) if kind.as_str() == "dumb")
}

impl Line {
    fn new(alloc: Global, names: Vec<String>) -> Option<Line> {
        let progress = Progress::new(alloc).ok()?;
        Some(Line {
            progress: Arc::new(alloc, progress).ok()?,
            pen: Mutex::new(false),
            rest: Parker::new(),
            names,
        })
    }

    fn notes(&self) -> Notes {
        match Arc::try_clone(&self.progress) {
            Ok(progress) => Notes::on(progress),
            Err(_) => Notes::nowhere(),
        }
    }

    // Writes the line repeatedly until it is closed.
    fn show<R: Eprint + Clock + Wait>(&self, rt: &R, alloc: Global) {
        let Ok(mut watcher) = Watcher::new(alloc) else {
            return;
        };
        let pause = Duration::from_millis(PAUSE);
        for _ in rt.forever() {
            self.rest.park_timeout(rt, pause);
            if self.progress.is_over() {
                return;
            }
            self.write(rt, alloc, &mut watcher);
        }
    }

    // Writes the line once, unless it is closed. If there is no memory or no clock, nothing is written.
    fn write<R: Eprint + Clock + Wait>(&self, rt: &R, alloc: Global, watcher: &mut Watcher) {
        let Ok(now) = rt.monotonic() else {
            return;
        };
        let look = watcher.look(&self.progress, now);
        let Ok(failures) = self.failures(alloc, watcher) else {
            return;
        };
        let Ok(line) = self.text(alloc, &look, failures.as_str()) else {
            return;
        };
        let mut stands = self.pen.lock(rt);
        if !self.progress.is_over() {
            let _ = rt.eprint(line.as_str());
            *stands = true;
        }
    }

    // Returns the text for a look: the rows of new failures, and the line below them.
    fn text(&self, alloc: Global, look: &Look, failures: &str) -> Result<String, AllocError> {
        let Look {
            all,
            settled,
            failed,
            running,
            oldest,
        } = look;
        let oldest = match oldest {
            Some(oldest) => self.oldest(alloc, oldest)?,
            None => String::new(alloc),
        };
        let counts = format!(in alloc; "[{settled}/{all}] {running} running, {failed} failed")?;
        format!(in alloc; "{ERASE}{failures}{BEGIN}{counts}{oldest}{END}")
    }

    // Returns a row for each action that has failed since the last look. The rows stay above the line.
    fn failures(&self, alloc: Global, watcher: &mut Watcher) -> Result<String, NoMemory> {
        let mut rows = String::new(alloc);
        for action in watcher.new_failures(alloc, &self.progress)? {
            let name = self.name(alloc, action)?;
            rows.push_str(name.as_str())?;
            rows.push_str(" failed\n")?;
        }
        Ok(rows)
    }

    // Returns the action's name, or its place in the list if its name isn't known.
    fn name(&self, alloc: Global, action: u32) -> Result<String, AllocError> {
        match self.names.get(action as usize) {
            Some(name) => String::from_str(alloc, name.as_str()),
            None => format!(in alloc; "actions[{action}]"),
        }
    }

    fn oldest(&self, alloc: Global, oldest: &Oldest) -> Result<String, AllocError> {
        let seconds = oldest.for_so_long.as_secs();
        let name = self.name(alloc, oldest.action)?;
        let waits = if seconds < LONG {
            ""
        } else {
            ", no answer yet"
        };
        format!(in alloc; ", {seconds} s: {name}{waits}")
    }

    // Erases the line, since the run is over or about to write its report. No line is written after that.
    fn close<R: Eprint + Wait>(&self, rt: &R) {
        let mut stands = self.pen.lock(rt);
        self.progress.finish();
        if *stands {
            let _ = rt.eprint(ERASE);
            *stands = false;
        }
        drop(stands);
        self.rest.unpark();
    }
}

impl<'a, R: Eprint + Wait + Drop, O: Sink> Sink for BehindLine<'a, R, O> {
    ghost told = { λ s. O.told s.out };

    fn faults(&self) -> u64 {
        self.out.faults()
    }

    fn put(&mut self, bytes: &[u8]) -> Io {
        self.line.close(&self.rt);
        self.out.put(bytes)
    }
}
