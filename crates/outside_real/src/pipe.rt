//! The state that the feed, the tap and the child of a line share, and the thread that empties a feed into its pipe.
use bare_calls::{has_ended, kill, rest, wait_for, wait_to_write, write_now};
use std::alloc::Global;
use std::io::{self, ErrorKind};
use std::os::fd::{AsRawFd, RawFd};
use std::process::{Child, ChildStdin, ExitStatus};
use std::sync::atomic::{AtomicBool, Ordering};
use std::sync::{Arc, Mutex, Wait};
use std::thread;
use std::thread::{Parker, Threads};

/// How a line's process ended.
#[derive(Clone, Copy)]
pub struct ProcessEnd {
    pub status: ExitStatus,
    /// True if it had ended before it was killed.
    pub by_itself: bool,
}

/// The state that the feed, the tap and the child of a line share.
#[derive(Drop)]
pub(crate) struct SharedLine {
    feed: Mutex<FeedPipe>,
    // A thread that closes the feed rests here until the writer has ended.
    rest: Parker,
    is_killed: AtomicBool,
    // True if the process was seen to have closed a pipe. Then it usually ends soon, or has ended.
    is_ending: AtomicBool,
    // True if the process ended by itself soon after bytes of it had been taken.
    is_brief: AtomicBool,
    // `None` before it is started.
    child: Mutex<Option<Child>>,
}

// The pipe into a process. A write to it never waits. Bytes that the pipe doesn't take at once wait here, and a writer,
// a separate thread, writes them. There is a writer only while bytes wait.
#[derive(Drop)]
struct FeedPipe {
    // `None` before the process is started, and once the pipe is closed.
    pipe: Option<ChildStdin>,
    waiting: Vec<u8>,
    // The number of waiting bytes that the pipe has taken.
    taken: usize,
    is_writing: bool,
}

// A writer's next step.
#[derive(Clone, Copy)]
enum Next {
    GoOn,
    WaitFor(RawFd),
    End,
}

impl SharedLine {
    /// Returns a line without a process.
    pub(crate) fn new(alloc: Global) -> SharedLine {
        SharedLine {
            feed: Mutex::new(FeedPipe::new(alloc)),
            rest: Parker::new(),
            is_killed: AtomicBool::new(false),
            is_ending: AtomicBool::new(false),
            is_brief: AtomicBool::new(false),
            child: Mutex::new(None),
        }
    }

    /// Sets the non-blocking pipe by which the line feeds its process.
    pub(crate) fn open<R: Wait>(&self, rt: &R, pipe: ChildStdin) {
        self.feed.lock(rt).pipe = Some(pipe);
    }

    /// Sets the line's process.
    pub(crate) fn own<R: Wait>(&self, rt: &R, child: Child) {
        *self.child.lock(rt) = Some(child);
    }

    /// Records that the process ended by itself soon after bytes of it had been taken.
    pub(crate) fn be_brief(&self) {
        self.is_brief.store(true, Ordering::SeqCst);
    }

    /// Returns true if the process ended by itself soon after bytes of it had been taken.
    pub(crate) fn is_brief(&self) -> bool {
        self.is_brief.load(Ordering::SeqCst)
    }

    /// Returns true if the process has been killed. All that it had written by then is in its pipe.
    pub(crate) fn is_killed(&self) -> bool {
        self.is_killed.load(Ordering::SeqCst)
    }

    /// Returns true if the process has ended, by itself or because it was killed. All that it had written by then is in
    /// its pipe.
    pub(crate) fn is_over(&self) -> bool {
        self.is_killed()
            || match self.child.try_lock() {
                Some(mut child) => child.as_mut().is_some_and(has_ended),
                // Another thread is ending it.
                None => false,
            }
    }

    /// Records that the process has closed a pipe.
    pub(crate) fn be_ending(&self) {
        self.is_ending.store(true, Ordering::SeqCst);
    }

    /// Kills the process, closes its feed, waits for it, and returns how it ended. A process that has closed a pipe
    /// first gets a moment to end by itself, so that its own end is reported and not the kill. A process that can't be
    /// killed ends at the end of its input, or is left alone.
    pub(crate) fn end<R: Wait>(&self, rt: &R) -> Option<ProcessEnd> {
        let mut by_itself = false;
        if let Some(child) = self.child.lock(rt).as_mut() {
            let tries = if self.is_ending.load(Ordering::SeqCst) {
                MOMENT
            } else {
                1
            };
            by_itself = ends_within(child, tries);
            kill(child);
        }
        self.close(rt);
        let mut child = self.child.lock(rt);
        let status = wait_for(child.as_mut()?).ok()?;
        Some(ProcessEnd { status, by_itself })
    }

    /// Closes the feed of a process that was killed, once any writer has ended. A process that it started, and that
    /// holds the other end too, then reaches the end of its input.
    pub(crate) fn close<R: Wait>(&self, rt: &R) {
        self.is_killed.store(true, Ordering::SeqCst);
        for _ in rt.forever() {
            if self.feed.lock(rt).close() {
                return;
            }
            self.rest.park(rt);
        }
    }

    // Writes the waiting bytes until none are left or the pipe is closed.
    fn empty(&self) {
        for _ in 0..u64::MAX {
            match self.next() {
                Next::GoOn => thread::yield_now(),
                // The next write sees what the wait found.
                Next::WaitFor(pipe) => drop(wait_to_write(pipe)),
                Next::End => break,
            }
        }
        self.rest.unpark();
    }

    fn next(&self) -> Next {
        let is_killed = self.is_killed();
        match self.feed.try_lock() {
            Some(mut feed) => feed.give_on(is_killed),
            None => Next::GoOn,
        }
    }
}

// The time, in milliseconds, in which a process that has closed a pipe may end by itself.
const MOMENT: i32 = 50;

// Looks at the process up to `looks` times, a millisecond apart. Returns true if it has ended.
fn ends_within(child: &mut Child, looks: i32) -> bool {
    for look in 0..looks {
        if look > 0 {
            rest(1);
        }
        if has_ended(child) {
            return true;
        }
    }
    false
}

/// Gives bytes to a line's process: as many to the pipe as it takes at once, and the rest to the writer.
///
/// # Errors
///
/// Returns an error if the pipe is closed or broken. Also returns one if there is no memory or no thread for the bytes
/// that it doesn't take at once.
pub(crate) fn give<R: Threads + Wait>(
    rt: &R,
    line: &Arc<SharedLine>,
    bytes: &[u8],
) -> io::Result<()> {
    let mut guard = line.feed.lock(rt);
    let feed = &mut *guard;
    if let Err(error) = feed.give(bytes) {
        if error.kind() == ErrorKind::BrokenPipe {
            line.be_ending();
        }
        return Err(error);
    }
    if feed.taken < feed.waiting.len() && !feed.is_writing {
        start_writer(rt, line, feed)?;
    }
    Ok(())
}

// Starts a writer. No thread joins it, but a thread that closes the feed waits for it.
fn start_writer<R: Threads>(rt: &R, line: &Arc<SharedLine>, feed: &mut FeedPipe) -> io::Result<()> {
    let shared = Arc::try_clone(line)?;
    feed.is_writing = thread::spawn(rt, move || shared.empty()).is_ok();
    if feed.is_writing {
        return Ok(());
    }
    feed.forget();
    Err(io::Error::other("no thread for what the pipe didn't take at once"))
}

impl FeedPipe {
    fn new(alloc: Global) -> FeedPipe {
        FeedPipe {
            pipe: None,
            waiting: Vec::new(alloc),
            taken: 0,
            is_writing: false,
        }
    }

    // Gives bytes to the pipe, after the bytes that wait.
    fn give(&mut self, bytes: &[u8]) -> io::Result<()> {
        let Some(pipe) = &mut self.pipe else {
            return Err(io::Error::from(ErrorKind::BrokenPipe));
        };
        let count = if self.is_writing {
            0
        } else {
            write_now(pipe, bytes)?
        };
        self.waiting.extend_from_slice(&bytes[count..])?;
        Ok(())
    }

    // Makes one step of a writer, and returns the next step. If there is a writer, the writer closes the pipe, since it
    // may be waiting for the pipe.
    fn give_on(&mut self, is_killed: bool) -> Next {
        if is_killed {
            self.pipe = None;
        }
        let next = match &mut self.pipe {
            Some(pipe) => {
                let left = self.waiting.get(self.taken..).unwrap_or(&[]);
                match write_now(pipe, left) {
                    Ok(0) => Next::WaitFor(pipe.as_raw_fd()),
                    Ok(count) if count < left.len() => {
                        self.taken = self.taken.saturating_add(count);
                        Next::GoOn
                    }
                    Ok(_) => Next::End,
                    Err(_) => {
                        self.pipe = None;
                        Next::End
                    }
                }
            }
            None => Next::End,
        };
        if matches!(next, Next::End) {
            self.forget();
        }
        next
    }

    // Clears the waiting bytes, and records that no writer runs.
    fn forget(&mut self) {
        self.waiting.clear();
        self.taken = 0;
        self.is_writing = false;
    }

    // Closes the pipe if no writer is at work. Otherwise the writer closes it. Returns true if it is closed.
    fn close(&mut self) -> bool {
        if !self.is_writing {
            self.pipe = None;
        }
        self.pipe.is_none()
    }
}
