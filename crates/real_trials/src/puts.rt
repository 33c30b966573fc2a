// Files for a room.
use outside::{Berth, Io};
use plain_values::{Blob, NoMemory};
use std::alloc::Global;

/// Puts a file with these bytes into the room. Without memory for them, the answer is `Failed`, and no call is made.
pub fn put<B: Berth>(alloc: Global, berth: &mut B, path: &str, bytes: &[u8]) -> Io {
    match content_of(alloc, bytes) {
        Ok(content) => berth.room_put(path, &content),
        Err(NoMemory) => Io::Failed,
    }
}

fn content_of(alloc: Global, bytes: &[u8]) -> Result<Blob, NoMemory> {
    Blob::of(alloc, bytes.to_vec(alloc)?)
}
