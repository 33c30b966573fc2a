// Places: outputs are written with their folders and over links. The temporary file next to an output has a
// different name for each place.
use crate::page::Page;
use outside::{Floor, Place};
use plain_values::NoMemory;
use std::alloc::Global;
use std::io::Print;

pub fn play<P: Print, F: Floor>(page: &mut Page<'_, P>, alloc: Global, floor: &mut F) {
    page.line("a place");
    let alone = write_many(page, alloc, floor);
    let first = write_one(page, floor, 1, "made/first", b"one");
    let second = write_one(page, floor, 2, "made/second", b"two");
    page.read("made/first", floor.read("made/first"));
    page.read("made/second", floor.read("made/second"));
    page.counts("faults of the places", &[alone, first, second]);
}

// Writes through a separate place, and returns its faults.
fn write_many<P: Print, F: Floor>(page: &mut Page<'_, P>, alloc: Global, floor: &mut F) -> u64 {
    match floor.make_place(0) {
        Ok(mut place) => {
            write_all(page, alloc, floor, &mut place);
            place.faults()
        }
        Err(NoMemory) => {
            page.no_memory();
            0
        }
    }
}

fn write_all<P: Print, F: Floor>(
    page: &mut Page<'_, P>,
    alloc: Global,
    floor: &mut F,
    place: &mut F::Place,
) {
    for path in ["made/deep/first", "link", "made"] {
        page.io(path, &place.write(path, b"written"));
        page.read(path, floor.read(path));
    }
    page.read("letter", floor.read("letter"));
    page.read("aside/file", floor.read("aside/file"));
    write_long(page, alloc, place, "a name of 255 bytes", 255);
    write_long(page, alloc, place, "a name of 256 bytes", 256);
    // An obstacle at one place's name is no obstacle for other places.
    page.io(
        "in the way",
        &place.write("made/.worker_tool.1.part/x", b""),
    );
}

fn write_long<O: Print, P: Place>(
    page: &mut Page<'_, O>,
    alloc: Global,
    place: &mut P,
    what: &str,
    length: usize,
) {
    match name(alloc, length) {
        Ok(name) => page.io(what, &place.write(name.as_str(), b"x")),
        Err(NoMemory) => page.no_memory(),
    }
}

// Writes once through a separate place, and returns its faults.
fn write_one<P: Print, F: Floor>(
    page: &mut Page<'_, P>,
    floor: &mut F,
    number: u32,
    path: &str,
    bytes: &[u8],
) -> u64 {
    match floor.make_place(number) {
        Ok(mut place) => {
            page.io(path, &place.write(path, bytes));
            place.faults()
        }
        Err(NoMemory) => {
            page.no_memory();
            0
        }
    }
}

/// Returns a name of `length` bytes.
pub fn name(alloc: Global, length: usize) -> Result<String, NoMemory> {
    let mut name = String::new(alloc);
    for _ in 0..length {
        name.push('n')?;
    }
    Ok(name)
}
