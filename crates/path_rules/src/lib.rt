//! The rules for paths of the tree that a run works in: relative, in one spelling, and inside the tree.
#![tactic(auto)]

ghost use Rattle.std.specs.Prelude.{◌≡◌, None, nat_eq, true};
ghost use Rattle.std.specs.List.{starts_with};
ghost use Rattle.path_rules.specs.Paths.{checked, has_fault, has_part_name, has_segment, is_part_name, is_plain_from, path_fault};

use thiserror::Error;

/// The largest number of bytes in a path.
const MAX_PATH: usize = 4096;

/// The fault of a path. The faults are in the order in which they are looked for.
#[derive(Clone, Copy, Debug, PartialEq, Eq, Error)]
pub enum PathFault {
    #[error("the path is empty")]
    Empty,
    #[error("the path is longer than 4096 bytes")]
    TooLong,
    #[error("the path has a zero byte")]
    Nul,
    #[error("the path begins with a slash")]
    Absolute,
    #[error("the path has an empty segment")]
    DoubleSlash,
    #[error("the path has a segment `.`")]
    Dot,
    #[error("the path has a segment `..`")]
    DotDot,
    #[error("the path's first segment is `__sandbox` or `.worker_rooms`, or a segment begins with `.worker_tool.`")]
    Reserved,
}

/// Looks for the faults of a path, in the order of `PathFault`. It takes no memory.
///
/// # Errors
///
/// Returns the first fault that the path has. A path is one or more segments with one slash between two of them, at
/// most 4,096 bytes long. No segment is empty, `.` or `..`, and no byte is zero. The run reserves some names. The first
/// segment is neither `__sandbox` nor `.worker_rooms`, and no segment begins with `.worker_tool.`.
pub fn check_path(path: &str) -> Result<(), PathFault>
    ensures { result ≡ checked (path_fault path.now) }
{
    if is_plain(path) {
        return Ok(());
    }
    if path.is_empty() {
        return Err(PathFault::Empty);
    }
    if path.len() > MAX_PATH {
        return Err(PathFault::TooLong);
    }
    if has_nul(path) {
        return Err(PathFault::Nul);
    }
    if is_absolute(path) {
        return Err(PathFault::Absolute);
    }
    if has_segment(path, "") {
        return Err(PathFault::DoubleSlash);
    }
    if has_segment(path, ".") {
        return Err(PathFault::Dot);
    }
    if has_segment(path, "..") {
        return Err(PathFault::DotDot);
    }
    if is_reserved(path) {
        return Err(PathFault::Reserved);
    }
    Ok(())
}

// Returns true if the path has no fault, as one pass over its bytes shows. Nearly all paths are plain. The others are
// looked at for each fault.
fn is_plain(path: &str) -> bool
    ensures { result ≡ true → path_fault path.now ≡ None }
{
    if path.len() > MAX_PATH {
        return false;
    }
    if begins_with(path, "_") {
        return false;
    }
    has_plain_segments(path.as_bytes())
}

// Returns true if no byte is zero, and each segment begins with a byte that isn't a dot.
fn has_plain_segments(bytes: &[u8]) -> bool
    ensures { result ≡ is_plain_from true bytes.now }
{
    let mut begins = true;
    for byte in bytes {
        if *byte == 0 || begins && (*byte == b'/' || *byte == b'.') {
            return false;
        }
        begins = *byte == b'/';
    }
    !begins
}

fn has_nul(path: &str) -> bool
    ensures { result ≡ has_fault path.now PathFault.Nul }
{
    path.as_bytes().contains(&0)
}

fn is_absolute(path: &str) -> bool
    ensures { result ≡ has_fault path.now PathFault.Absolute }
{
    path.starts_with("/")
}

fn has_segment(path: &str, segment: &str) -> bool
    ensures { result ≡ has_segment segment.now path.now }
{
    path.split('/').any(|s| s == segment)
}

fn is_reserved(path: &str) -> bool
    ensures { result ≡ has_fault path.now PathFault.Reserved }
{
    let first = match path.split_once('/') {
        Some((first, _)) => first,
        None => path,
    };
    first == "__sandbox" || first == ".worker_rooms" || has_part_name(path)
}

// Returns true if a segment begins like the temporary name of an output.
fn has_part_name(path: &str) -> bool
    ensures { result ≡ has_part_name path.now }
{
    path.split('/').any(|s| is_part_name(s))
}

fn is_part_name(segment: &str) -> bool
    ensures { result ≡ is_part_name segment.now }
{
    begins_with(segment, ".worker_tool.")
}

fn begins_with(segment: &str, front: &str) -> bool
    ensures { result ≡ starts_with nat_eq segment.now front.now }
{
    segment.starts_with(front)
}
