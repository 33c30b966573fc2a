// The output about the real objects, line by line.
use outside::{Io, Read};
use plain_values::NoMemory;
use std::io::{self, ErrorKind, Print};
use std::str;

/// Lines of standard output. The first failure is kept for the end, so that nothing has to end early.
#[derive(Drop)]
pub struct Page<'a, P> {
    rt: &'a P,
    printed: io::Result<()>,
}

impl<'a, P: Print> Page<'a, P> {
    pub fn of(rt: &'a P) -> Page<'a, P> {
        Page {
            rt,
            printed: Ok(()),
        }
    }

    /// Returns the first failure, if there was one.
    pub fn end(self) -> io::Result<()> {
        self.printed
    }

    /// Records how a line was printed, or why there is none.
    fn note(&mut self, printed: io::Result<()>) {
        if self.printed.is_ok() {
            self.printed = printed;
        }
    }

    pub fn no_memory(&mut self) {
        self.note(Err(io::Error::from(ErrorKind::OutOfMemory)));
    }

    pub fn line(&mut self, line: &str) {
        let printed = println!(self.rt; "{line}");
        self.note(printed);
    }

    /// Prints counts, at most three of a kind.
    pub fn counts(&mut self, what: &str, counts: &[u64]) {
        let printed = match counts {
            [one] => println!(self.rt; "  {what} {one}"),
            [one, two] => println!(self.rt; "  {what} {one}, {two}"),
            [one, two, three] => println!(self.rt; "  {what} {one}, {two}, {three}"),
            _ => println!(self.rt; "  {what}"),
        };
        self.note(printed);
    }

    pub fn io(&mut self, what: &str, io: &Io) {
        let end = match io {
            Io::Done => "done",
            Io::Failed => "failed",
        };
        let printed = println!(self.rt; "  {what}: {end}");
        self.note(printed);
    }

    pub fn read(&mut self, path: &str, read: Result<Read, NoMemory>) {
        let printed = match read {
            Ok(Read::Found(bytes)) => {
                let text = str::from_utf8(bytes.bytes()).unwrap_or("no text");
                println!(self.rt; "  {path}: {text:?}")
            }
            Ok(Read::Absent) => println!(self.rt; "  {path}: absent"),
            Ok(Read::Failed) => println!(self.rt; "  {path}: failed"),
            Err(NoMemory) => Err(io::Error::from(ErrorKind::OutOfMemory)),
        };
        self.note(printed);
    }

    /// Prints the number of bytes at the path.
    pub fn size(&mut self, path: &str, count: usize) {
        let printed = println!(self.rt; "  {path}: {count} bytes");
        self.note(printed);
    }

    /// Prints the status with which a job ended.
    pub fn code(&mut self, code: i32) {
        let printed = println!(self.rt; "  exit {code}");
        self.note(printed);
    }

    /// Prints the system's error, if there is one.
    pub fn error(&mut self, error: Option<&io::Error>) {
        let printed = match error {
            Some(error) => println!(self.rt; "  the system said: {error}"),
            None => println!(self.rt; "  the system said nothing"),
        };
        self.note(printed);
    }

    /// Prints the bytes that were taken.
    pub fn taken(&mut self, bytes: &[u8]) {
        let text = str::from_utf8(bytes).unwrap_or("no text");
        let printed = println!(self.rt; "  taken {text:?}");
        self.note(printed);
    }
}
