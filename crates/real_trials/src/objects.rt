// The drive of each real object.
use crate::page::Page;
use crate::{lines, places, rooms, shops};
use outside::Floor;
use outside_real::{RealFloor, RealShop, RealTap};
use plain_values::NoMemory;
use std::alloc::Global;
use std::fs::File;
use std::io::{self, ErrorKind, Print};
use std::os::fd::OwnedFd;
use std::process::{ChildStdout, Processes, SystemProcess};
use std::rt::Files;
use std::sync::Wait;
use std::thread::Threads;

/// Drives each real object once.
pub fn drive<R>(rt: R, alloc: Global) -> io::Result<()>
where
    R: Files<File = File> + Processes<Started = SystemProcess> + Print,
    R: AllocGlobal + Threads + Wait + Copy + Drop,
{
    let mut page = Page::of(&rt);
    let mut floor = RealFloor::new(rt, alloc);
    play(&mut page, alloc, &mut floor);
    page.error(floor.last_error());
    page.line("another run");
    let mut second = RealFloor::new(rt, alloc);
    page.read("letter", second.read("letter"));
    page.error(second.last_error());
    page.line("a tap over what is no pipe");
    let folder = ChildStdout::from(OwnedFd::from(File::open(&rt, ".")?));
    let mut tap = RealTap::over(alloc, folder).map_err(no_memory)?;
    lines::take(&mut page, &mut tap);
    page.error(tap.last_error());
    page.line("a shop");
    shops::play(&mut page, alloc, &mut RealShop::new(rt, alloc));
    page.end()
}

// Drives a floor, its berths and its places, and ends with a read that fails.
fn play<P: Print, F: Floor>(page: &mut Page<'_, P>, alloc: Global, floor: &mut F) {
    page.line("sources");
    for path in ["letter", "gone", "."] {
        page.read(path, floor.read(path));
    }
    page.line("a room");
    match floor.make_berth(3) {
        Ok(mut berth) => {
            rooms::play(page, alloc, &mut berth);
            page.line("lines");
            lines::play(page, alloc, &mut berth);
        }
        Err(NoMemory) => page.no_memory(),
    }
    for path in ["letter", "aside/file", "aside/x"] {
        page.read(path, floor.read(path));
    }
    places::play(page, alloc, floor);
    match places::name(alloc, 300) {
        Ok(name) => page.read("a name of 300 bytes", floor.read(name.as_str())),
        Err(NoMemory) => page.no_memory(),
    }
}

/// Returns the system's error for lack of memory.
pub fn no_memory(_: NoMemory) -> io::Error {
    io::Error::from(ErrorKind::OutOfMemory)
}
