// A room: files that were put are found, and files that were cleared are gone.
use crate::page::Page;
use crate::puts::put;
use outside::{Berth, Io, Read};
use plain_values::NoMemory;
use std::alloc::Global;
use std::io::Print;

pub fn play<P: Print, B: Berth>(page: &mut Page<'_, P>, alloc: Global, berth: &mut B) {
    page.io("clear", &berth.room_clear(""));
    page.io("put a/b", &put(alloc, berth, "a/b", b"x"));
    page.io("put a/b again", &put(alloc, berth, "a/b", b"y"));
    page.read("a/b", berth.room_get("a/b"));
    page.read("a", berth.room_get("a"));
    page.read("a/b/c", berth.room_get("a/b/c"));
    page.io("folder c/d", &berth.room_folder("c/d"));
    page.io("put c/d", &put(alloc, berth, "c/d", b"z"));
    page.io("clear a", &berth.room_clear("a"));
    page.read("a/b", berth.room_get("a/b"));
    page.io("clear a again", &berth.room_clear("a"));
    play_way(page, alloc, berth);
    play_much(page, alloc, berth);
    page.counts("faults of the berth", &[berth.faults()]);
}

// Puts files and makes a folder whose paths lead through existing files. Those files make way.
fn play_way<P: Print, B: Berth>(page: &mut Page<'_, P>, alloc: Global, berth: &mut B) {
    page.io("put e", &put(alloc, berth, "e", b"x"));
    page.io("put e/f/g", &put(alloc, berth, "e/f/g", b"y"));
    page.read("e/f/g", berth.room_get("e/f/g"));
    page.io("folder e/f/g", &berth.room_folder("e/f/g"));
    page.read("e/f/g", berth.room_get("e/f/g"));
    page.io("put e/f/g/h", &put(alloc, berth, "e/f/g/h", b"z"));
    page.read("e/f/g/h", berth.room_get("e/f/g/h"));
}

// Puts a large file, an empty one, and more names than one read of a folder returns.
fn play_much<P: Print, B: Berth>(page: &mut Page<'_, P>, alloc: Global, berth: &mut B) {
    play_large(page, alloc, berth);
    page.io("put empty", &put(alloc, berth, "empty", b""));
    page.read("empty", berth.room_get("empty"));
    for number in 10u32..50 {
        put_long(page, alloc, berth, number);
    }
    read_last(page, alloc, berth);
    page.io("clear", &berth.room_clear(""));
    read_last(page, alloc, berth);
    page.read("e/f/g/h", berth.room_get("e/f/g/h"));
}

fn play_large<P: Print, B: Berth>(page: &mut Page<'_, P>, alloc: Global, berth: &mut B) {
    match large(alloc) {
        Ok(bytes) => page.io("put large", &put(alloc, berth, "large", bytes.as_slice())),
        Err(NoMemory) => page.no_memory(),
    }
    if let Ok(Read::Found(found)) = berth.room_get("large") {
        page.size("large", found.bytes().len());
    }
}

fn large(alloc: Global) -> Result<Vec<u8>, NoMemory> {
    Ok(vec![in alloc; b'x'; 100_000]?)
}

// Returns a name of 202 bytes.
fn long_name(alloc: Global, number: u32) -> Result<String, NoMemory> {
    Ok(format!(in alloc; "{number}{:x<200}", "")?)
}

// Puts a file, and prints nothing if that succeeds.
fn put_long<P: Print, B: Berth>(page: &mut Page<'_, P>, alloc: Global, berth: &mut B, number: u32) {
    match long_name(alloc, number) {
        Ok(name) => {
            let end = put(alloc, berth, name.as_str(), b"y");
            if matches!(end, Io::Failed) {
                page.io(name.as_str(), &end);
            }
        }
        Err(NoMemory) => page.no_memory(),
    }
}

fn read_last<P: Print, B: Berth>(page: &mut Page<'_, P>, alloc: Global, berth: &mut B) {
    match long_name(alloc, 49) {
        Ok(name) => page.read("the last", berth.room_get(name.as_str())),
        Err(NoMemory) => page.no_memory(),
    }
}
