// The bare calls on the pipes of a process. What they do is trusted.
ghost use Rattle.std.specs.Prelude.{◌≤◌, IfOk, length};

use libc::net::{POLLIN, POLLNVAL, POLLOUT};
use libc::types::pollfd;
use std::io::{self, ErrorKind, Write};
use std::os::fd::{AsRawFd, RawFd};
use std::process::{ChildStdin, ChildStdout};

/// The longest single wait for a pipe, in milliseconds.
pub const PAUSE: i32 = 200;

/// The largest number of bytes that [`tell`] writes. A pipe that is ready for writing has room for that many.
const MOST_TOLD: usize = 512;

const NULL_DEVICE: &[u8] = b"/dev/null";

/// Makes the pipe non-blocking: a write to a full pipe then fails instead of waiting.
pub fn never_wait(pipe: &ChildStdin) -> io::Result<()> {
    if os::set_nonblocking(pipe.as_raw_fd(), true) == 0 {
        Ok(())
    } else {
        Err(io::Error::from_raw_os_error(os::errno()))
    }
}

/// Writes as many bytes as the pipe takes without waiting, and returns their number. It is 0 if the pipe is full.
pub fn write_now(pipe: &mut ChildStdin, bytes: &[u8]) -> io::Result<usize>
    ensures { IfOk result (λ n. n ≤ length bytes.now) }
{
    match pipe.write(bytes) {
        Err(error) if is_later(&error) => Ok(0),
        written => written,
    }
}

/// Waits until the pipe takes bytes or has no reader left, for at most [`PAUSE`] milliseconds.
pub fn wait_to_write(pipe: RawFd) -> io::Result<()> {
    wait_for(pipe, POLLOUT)?;
    Ok(())
}

/// Waits until a read of the pipe would find bytes or its end, for at most [`PAUSE`] milliseconds. Returns true if it
/// would.
pub fn wait_to_read(pipe: &ChildStdout) -> io::Result<bool> {
    wait_for(pipe.as_raw_fd(), POLLIN)
}

/// Waits until nobody holds the other end of the pipe, for at most `milliseconds`. Returns true if nobody does.
pub fn wait_for_end(pipe: &ChildStdout, milliseconds: i32) -> bool {
    let mut asked = [pollfd {
        fd: pipe.as_raw_fd(),
        events: 0,
        revents: 0,
    }];
    libc::net::poll(&mut asked, milliseconds) > 0
}

/// Waits until standard output takes bytes or has no reader left, for at most [`PAUSE`] milliseconds. Standard output
/// may be non-blocking.
pub fn wait_for_output() -> io::Result<()> {
    wait_for(libc::STDOUT_FILENO, POLLOUT)?;
    Ok(())
}

/// Waits until standard input has bytes or its end, for at most [`PAUSE`] milliseconds. Returns true if it has.
pub fn wait_for_input() -> io::Result<bool> {
    wait_for(libc::STDIN_FILENO, POLLIN)
}

/// Writes two short strings to standard error in one write if that doesn't block. Otherwise nothing is written.
pub fn tell(name: &str, text: &str) {
    let mut asked = [pollfd {
        fd: libc::STDERR_FILENO,
        events: POLLOUT,
        revents: 0,
    }];
    if libc::net::poll(&mut asked, 0) > 0 && asked[0].revents & POLLOUT != 0 {
        let mut line = [0u8; MOST_TOLD];
        let mut count: usize = 0;
        for (place, byte) in line.iter_mut().zip(name.bytes().chain(text.bytes())) {
            *place = byte;
            count = count.saturating_add(1);
        }
        os::write_no_sigpipe(libc::STDERR_FILENO, line.get(..count).unwrap_or(&[]));
    }
}

/// Returns true if a second try may succeed: there was nothing to do yet, or a signal came first.
pub fn is_later(error: &io::Error) -> bool {
    matches!(error.kind(), ErrorKind::WouldBlock | ErrorKind::Interrupted)
}

/// Rests for `milliseconds`, or until a signal comes.
pub fn rest(milliseconds: i32) {
    let mut none: [pollfd; 0] = [];
    let _ = libc::net::poll(&mut none, milliseconds);
}

/// Opens the null device for each of the descriptors 0, 1 and 2 that is closed. So no file that the run opens gets one
/// of these numbers. Standard output is opened so that each write to it fails.
pub fn open_standard() {
    for fd in libc::STDIN_FILENO..=libc::STDERR_FILENO {
        let mut asked = [pollfd {
            fd,
            events: 0,
            revents: 0,
        }];
        if libc::net::poll(&mut asked, 0) >= 0 && asked[0].revents & POLLNVAL != 0 {
            // The lowest free number is this one.
            if fd == libc::STDERR_FILENO {
                os::open_overwrite(NULL_DEVICE);
            } else {
                os::open_read(NULL_DEVICE);
            }
        }
    }
}

// Returns true if the pipe is ready. A signal ends the wait as well.
fn wait_for(pipe: RawFd, event: i16) -> io::Result<bool> {
    let mut asked = [pollfd {
        fd: pipe,
        events: event,
        revents: 0,
    }];
    if libc::net::poll(&mut asked, PAUSE) >= 0 {
        return Ok(asked[0].revents != 0);
    }
    match io::Error::from_raw_os_error(os::errno()) {
        error if is_later(&error) => Ok(false),
        error => Err(error),
    }
}
