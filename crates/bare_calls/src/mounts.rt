// Which file systems show each change of a file. What the system says is trusted.
use crate::disk::read_regular;
use std::alloc::Global;
use std::rt::Files;
use std::str;

/// The file in which the system lists what is mounted.
const MOUNTS: &str = "/proc/self/mountinfo";

/// The file systems that set a file's times as soon as somebody writes through a mapping of it. A file system in
/// memory (tmpfs) never sets them then.
const SHOWING: [&str; 5] = ["ext2", "ext3", "ext4", "xfs", "f2fs"];

/// Returns true if the file system on this device is known to show each change of a file.
pub(crate) fn shows_changes<R: Files + AllocGlobal>(rt: &R, device: u64) -> bool {
    match read_regular(rt, MOUNTS) {
        Ok(Some(bytes)) => bytes.split(|byte| *byte == b'\n').any(
            |line| matches!(str::from_utf8(line), Ok(line) if is_on_showing(line, device)),
        ),
        _ => false,
    }
}

// Returns true if a line of the list names this device, and one of the file systems.
fn is_on_showing(line: &str, device: u64) -> bool {
    let Some((front, back)) = line.split_once(" - ") else {
        return false;
    };
    let Some(numbers) = front.split(' ').nth(2) else {
        return false;
    };
    let Some(kind) = back.split(' ').next() else {
        return false;
    };
    is_number_of(numbers, device) && SHOWING.iter().any(|it| *it == kind)
}

// Returns true if this is the device's number, written as `8:1`.
fn is_number_of(numbers: &str, device: u64) -> bool {
    let Some((major, minor)) = numbers.split_once(':') else {
        return false;
    };
    major.parse::<u64>() == Ok(major_of(device)) && minor.parse::<u64>() == Ok(minor_of(device))
}

// Linux keeps the lower twelve bits of the first number above the lower eight of the second one.
fn major_of(device: u64) -> u64 {
    ((device >> 8) & 0xfff) | ((device >> 32) & 0xffff_f000)
}

fn minor_of(device: u64) -> u64 {
    (device & 0xff) | ((device >> 12) & 0xffff_ff00)
}
