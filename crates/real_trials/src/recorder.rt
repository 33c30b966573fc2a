// The files of the system. Each call on them is printed, and one call is refused on request.
use std::alloc::Allocator;
use std::fs::{FileTimes, Metadata, OpenFile, OpenOptions, Permissions};
use std::io::{self, ErrorKind, Print, Read, Seek, SeekFrom, Write};
use std::path::PathBuf;
use std::rt::Files;
use std::sync::atomic::{AtomicU64, Ordering};

/// The number of bytes that a read of a file returns at most, so that one read never returns a whole file.
const MOST_READ: usize = 2;

/// Files whose calls are printed.
#[derive(Clone, Copy)]
pub struct Recorder<'a, R> {
    rt: R,
    made: &'a AtomicU64,
    refused: u64,
}

/// A file or a folder of a recorder.
#[derive(Drop)]
pub struct Recorded<'a, R, F> {
    of: Recorder<'a, R>,
    file: F,
    most: usize,
}

impl<'a, R: Print> Recorder<'a, R> {
    /// Returns the files of this runtime. Their calls are counted in `made`, and the call with the number
    /// `refused` is refused.
    pub fn new(rt: R, made: &'a AtomicU64, refused: u64) -> Recorder<'a, R> {
        Recorder { rt, made, refused }
    }

    // Prints a call, and refuses it if it has that number.
    fn call(&self, what: &str, path: &str) -> io::Result<()> {
        let (front, path) = shown(path);
        let before = self.made.fetch_add(1, Ordering::SeqCst);
        if before.saturating_add(1) == self.refused {
            println!(&self.rt; "  {what} {front}{path}, which is refused")?;
            return Err(io::Error::from(ErrorKind::PermissionDenied));
        }
        println!(&self.rt; "  {what} {front}{path}")
    }
}

// Returns a path as it is printed. If it is in a folder that is held open, the system's number of that
// folder is left out.
fn shown(path: &str) -> (&str, &str) {
    match path.strip_prefix("/proc/self/fd/") {
        Some(rest) => match rest.split_once('/') {
            Some((_, name)) => ("*/", name),
            None => ("*", ""),
        },
        None => ("", path),
    }
}

fn way(how: &OpenOptions) -> &'static str {
    if how.asks_create_new() {
        "make"
    } else if how.asks_create() {
        "make or open"
    } else {
        "open"
    }
}

impl<'a, R: Files + Print + Copy + Drop> Files for Recorder<'a, R> {
    type File = Recorded<'a, R, R::File>;

    type Dir = Recorded<'a, R, R::Dir>;

    fn open_file(&self, how: &OpenOptions, path: &str) -> io::Result<Recorded<'a, R, R::File>> {
        self.call(way(how), path)?;
        let file = self.rt.open_file(how, path)?;
        Ok(Recorded {
            of: Recorder::new(self.rt, self.made, self.refused),
            file,
            most: MOST_READ,
        })
    }

    fn open_dir(&self, path: &str) -> io::Result<Recorded<'a, R, R::Dir>> {
        self.call("list", path)?;
        let file = self.rt.open_dir(path)?;
        Ok(Recorded {
            of: Recorder::new(self.rt, self.made, self.refused),
            file,
            most: usize::MAX,
        })
    }

    fn metadata(&self, path: &str) -> io::Result<Metadata> {
        self.call("look behind links at", path)?;
        self.rt.metadata(path)
    }

    fn symlink_metadata(&self, path: &str) -> io::Result<Metadata> {
        self.call("look at", path)?;
        self.rt.symlink_metadata(path)
    }

    fn copy(&self, from: &str, to: &str) -> io::Result<u64> {
        self.call("copy to", to)?;
        self.rt.copy(from, to)
    }

    fn rename(&self, from: &str, to: &str) -> io::Result<()> {
        self.call("rename", from)?;
        self.rt.rename(from, to)
    }

    fn remove_file(&self, path: &str) -> io::Result<()> {
        self.call("remove", path)?;
        self.rt.remove_file(path)
    }

    fn create_dir(&self, path: &str) -> io::Result<()> {
        self.call("make folder", path)?;
        self.rt.create_dir(path)
    }

    fn remove_dir(&self, path: &str) -> io::Result<()> {
        self.call("remove folder", path)?;
        self.rt.remove_dir(path)
    }

    fn remove_dir_all<B: Allocator>(&self, alloc: B, path: &str) -> io::Result<()> {
        self.call("remove all in", path)?;
        self.rt.remove_dir_all(alloc, path)
    }

    fn canonicalize<B: Allocator>(&self, alloc: B, path: &str) -> io::Result<PathBuf<B>> {
        self.call("resolve", path)?;
        self.rt.canonicalize(alloc, path)
    }

    fn set_permissions(&self, path: &str, perm: Permissions) -> io::Result<()> {
        self.call("change rights of", path)?;
        self.rt.set_permissions(path, perm)
    }
}

impl<'a, R: Print, F: Read> Read for Recorded<'a, R, F> {
    fn read(&mut self, buf: &mut [u8]) -> io::Result<usize> {
        self.of.call("read", "it")?;
        match buf.get_mut(..self.most) {
            Some(front) => self.file.read(front),
            None => self.file.read(buf),
        }
    }
}

impl<'a, R: Print, F: Write> Write for Recorded<'a, R, F> {
    fn write(&mut self, buf: &[u8]) -> io::Result<usize> {
        self.of.call("write", "it")?;
        self.file.write(buf)
    }

    fn flush(&mut self) -> io::Result<()> {
        self.file.flush()
    }
}

impl<'a, R: Print, F: Seek> Seek for Recorded<'a, R, F> {
    fn seek(&mut self, to: SeekFrom) -> io::Result<u64> {
        self.file.seek(to)
    }
}

impl<'a, R: Print, F: OpenFile> OpenFile for Recorded<'a, R, F> {
    fn metadata(&self) -> io::Result<Metadata> {
        self.file.metadata()
    }

    fn set_len(&self, size: u64) -> io::Result<()> {
        self.file.set_len(size)
    }

    fn sync_all(&self) -> io::Result<()> {
        self.file.sync_all()
    }

    fn sync_data(&self) -> io::Result<()> {
        self.file.sync_data()
    }

    fn set_times(&self, times: FileTimes) -> io::Result<()> {
        self.of.call("set times of", "it")?;
        self.file.set_times(times)
    }
}
