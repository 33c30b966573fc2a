//! Makes bare calls on files, and prints each system call that they make. Also drives each real object
//! once. No clause states what files, folders, pipes and processes do, so this program is their test.
//!
//! | A line of standard input | Does |
//! |---|---|
//! | `CALL PATH`, `CALL PATH NTH` | makes the bare call at this path, and prints its system calls and its result |
//! | `objects` | drives each real object once |
//! | `# ..` | prints the line as it is |
//!
//! CALL is `source`, `read`, `write`, `beside`, `folder` or `aside`. All but `source` and `beside` are made
//! in the folder `files`. Or CALL is `clear`, `part`, `make`, `put` or `get` in the room of berth 3, which
//! a process may `enter` and `leave`. Each system call that names a path is printed, and the NTH of them is
//! refused. `*/NAME` is NAME in a folder that is held open. `keep` lets the room keep large files on any
//! file system, `large PATH` puts one, `harm WAY PATH` changes it as a process might, and `holds PATH` tells
//! whether it has its content.
//!
//! The program runs in its own folder with the files of `data/`. `dev/real-vectors` writes `stdin` and
//! `stdout`.
#![tactic(auto)]

mod calls;
mod harms;
mod lines;
mod objects;
mod page;
mod places;
mod puts;
mod recorder;
mod rooms;
mod shops;

use bare_calls::Room;
use calls::Scene;
use harms::Harmer;
use std::io::{self, ErrorKind, Read};
use std::str;

fn main(rt: HostRuntime) -> io::Result<()> {
    let alloc = rt.alloc();
    let mut bytes = Vec::new(alloc);
    rt.reader().read_to_end(&mut bytes)?;
    let Ok(text) = str::from_utf8(&bytes) else {
        return Err(io::Error::from(ErrorKind::InvalidData));
    };
    let mut scene = Scene {
        room: Room::new(alloc, 3),
        harmer: Harmer::new(),
    };
    for line in text.lines() {
        if line.starts_with('#') {
            println!(&rt; "{line}")?;
        } else if line == "objects" {
            objects::drive(rt, alloc)?;
        } else {
            let told = calls::play(&rt, alloc, &mut scene, line).map_err(objects::no_memory)?;
            println!(&rt; "{told}")?;
        }
    }
    Ok(())
}
