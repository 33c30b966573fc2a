// A queue of bytes in pieces.
ghost use Rattle.std.specs.Prelude.{◌≡◌, ◌≤◌, ◌<◌, ◌-◌, ◌+◌, ◌++◌, [], All, IfOk, OnErr, OnOk, drop, length, take};
ghost use Rattle.std.specs.VecDeque.{deque_len, deque_capacity};
ghost use Rattle.byte_pieces.specs.Queues.{HasRoom, IsFree, IsFull, IsPartAt, bytes_of, filled};

use plain_values::NoMemory;
use std::alloc::Global;
use std::collections::VecDeque;
use std::marker::Model;
use std::mem;

/// The size of a piece in bytes.
const PIECE: usize = 16_384;

/// Bytes in the order in which they came. They are in pieces of 16,384 bytes that don't move. A piece is dropped as
/// soon as all of it was read, except the last one, which is kept as room for the next bytes. So at most two pieces are
/// held in addition to the unread bytes.
#[derive(Drop)]
pub struct Pieces {
    full: VecDeque<Vec<u8>>,
    last: Vec<u8>,
    /// The number of bytes in all pieces.
    total: usize,
    /// The number of these bytes that were read.
    read: usize,
}

impl Model for Pieces {
    ghost use Rattle.std.specs.Prelude.{List, ℕ, drop, ◌++◌};
    ghost use Rattle.std.specs.VecDeque.{deque_len, deque_capacity};
    ghost use Rattle.byte_pieces.specs.Queues.{AreHeld, bytes_of};

    ghost Value = { List ℕ };

    ghost view = { λ p. drop p.read (bytes_of p.full.items ++ p.last.items) };

    ghost invariant = { λ p. AreHeld p.full.items p.last p.total p.read };
}

impl Pieces {
    /// Returns a queue without bytes.
    pub fn new(alloc: Global) -> Pieces
        ensures { result ≡ [] }
    {
        Pieces {
            full: VecDeque::new(alloc),
            last: Vec::new(alloc),
            total: 0,
            read: 0,
        }
    }

    /// Returns the allocator of the pieces.
    pub fn allocator(&self) -> Global {
        *self.last.allocator()
    }

    /// Returns the number of unread bytes.
    pub fn len(&self) -> usize
        ensures { result ≡ length self.now }
    {
        self.total - self.read
    }

    /// Appends these bytes.
    ///
    /// # Errors
    ///
    /// Returns `NoMemory` if memory runs out. Then nothing was appended.
    pub fn feed(&mut self, bytes: &[u8]) -> Result<(), NoMemory>
        ensures ok { OnOk result (self.new ≡ self.old ++ bytes.now) }
        ensures err { OnErr result (self.new ≡ self.old) }
    {
        let total = self.total.checked_add(bytes.len()).ok_or(NoMemory)?;
        let free = free_in(&self.last);
        if bytes.len() <= free {
            let Ok(()) = self.last.extend_from_slice(bytes) else {
                unreachable!()
            };
            self.total = total;
            return Ok(());
        }
        let (front, behind) = bytes.split_at(free);
        let (full, last) = pieces_of(*self.last.allocator(), behind)?;
        let more = full.len().checked_add(1).ok_or(NoMemory)?;
        self.full.reserve(more)?;
        let Ok(()) = self.last.extend_from_slice(front) else {
            unreachable!()
        };
        let before = mem::replace(&mut self.last, last);
        put_behind(&mut self.full, before, full);
        self.total = total;
        Ok(())
    }

    /// Returns the bytes from `at` on that are in one piece: at least one, if there is one.
    pub fn part(&self, at: usize) -> &[u8]
        requires { at ≤ length self.now }
        ensures { IsPartAt self.now at result.now }
    {
        let place = self.read + at;
        part_of(&self.full, &self.last, place)
    }

    /// Returns a copy of the bytes between these places.
    ///
    /// # Errors
    ///
    /// Returns `NoMemory` if memory runs out.
    pub fn copy(&self, start: usize, end: usize) -> Result<Vec<u8>, NoMemory>
        requires { (start ≤ end) × (end ≤ length self.now) }
        ensures { IfOk result (λ v. v.items ≡ take (end - start) (drop start self.now)) }
    {
        let mut copied = Vec::with_capacity(self.allocator(), end - start)?;
        let mut at = start;
        while at < end {
            let part = self.part(at);
            let part = &part[..part.len().min(end - at)];
            copied.extend_from_slice(part)?;
            at += part.len();
        }
        Ok(copied)
    }

    /// Drops `count` bytes at the front.
    pub fn drop_front(&mut self, count: usize)
        requires { count ≤ length self.old }
        ensures { self.new ≡ drop count self.old }
    {
        self.read += count;
        while self.read >= PIECE {
            let Some(_) = self.full.pop_front() else {
                break;
            };
            self.read -= PIECE;
            self.total -= PIECE;
        }
        if self.read == self.total {
            self.full.clear();
            self.last.clear();
            self.read = 0;
            self.total = 0;
        }
    }
}

// Returns the bytes from `place` on that are in one of the pieces.
fn part_of<'a>(full: &'a VecDeque<Vec<u8>>, last: &'a [u8], place: usize) -> &'a [u8]
    requires full { All IsFull full.now.items }
    requires within { place ≤ length (bytes_of full.now.items ++ last.now) }
    ensures { IsPartAt (bytes_of full.now.items ++ last.now) place result.now }
{
    match full.get(place / PIECE) {
        Some(piece) => &piece[place % PIECE..],
        None => &last[place - PIECE * full.len()..],
    }
}

// Splits these bytes, at least one, into full pieces and a last one.
fn pieces_of(alloc: Global, bytes: &[u8]) -> Result<(Vec<Vec<u8>>, Vec<u8>), NoMemory>
    ensures bytes { IfOk result (λ p. bytes_of p.0.items ++ p.1.items ≡ bytes.now) }
    ensures full { IfOk result (λ p. All IsFull p.0.items) }
    ensures last { IfOk result (λ p. (length p.1.items ≤ 16384) × HasRoom p.1) }
{
    let mut full = Vec::new(alloc);
    let mut rest = bytes;
    while rest.len() > PIECE {
        let (piece, behind) = rest.split_at(PIECE);
        full.push(piece_of(alloc, piece)?)?;
        rest = behind;
    }
    Ok((full, piece_of(alloc, rest)?))
}

// Returns these bytes in a separate piece.
fn piece_of(alloc: Global, bytes: &[u8]) -> Result<Vec<u8>, NoMemory>
    requires { length bytes.now ≤ 16384 }
    ensures bytes { IfOk result (λ p. p.items ≡ bytes.now) }
    ensures room { IfOk result HasRoom }
{
    let mut piece = Vec::with_capacity(alloc, PIECE)?;
    piece.extend_from_slice(bytes)?;
    Ok(piece)
}

// Returns the number of further bytes that the last piece takes.
fn free_in(last: &Vec<u8>) -> usize
    requires { HasRoom last.now × (length last.now.items ≤ 16384) }
    ensures { IsFree last.now result }
{
    if last.capacity() < PIECE {
        0
    } else {
        PIECE - last.len()
    }
}

// Appends the piece, if it has bytes, and then the others to the full ones, which have room for them.
fn put_behind(full: &mut VecDeque<Vec<u8>>, before: Vec<u8>, pieces: Vec<Vec<u8>>)
    requires { deque_len full.old + length pieces.items + 1 ≤ deque_capacity full.old }
    ensures { full.new.items ≡ full.old.items ++ filled before ++ pieces.items }
{
    put_filled(full, before);
    let mut rest = VecDeque::from_vec(pieces);
    while let Some(piece) = rest.pop_front() {
        full.push_back_reserved(piece);
    }
}

fn put_filled(full: &mut VecDeque<Vec<u8>>, piece: Vec<u8>)
    requires { deque_len full.old < deque_capacity full.old }
    ensures items { full.new.items ≡ full.old.items ++ filled piece }
    ensures len { deque_len full.new ≤ deque_len full.old + 1 }
    ensures capacity { deque_capacity full.new ≡ deque_capacity full.old }
{
    if !piece.is_empty() {
        full.push_back_reserved(piece);
    }
}
