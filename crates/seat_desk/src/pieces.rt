//! A history in pieces: adding an entry moves no earlier entry.
ghost use Rattle.std.specs.Prelude.{◌≡◌, ◌<◌, ◌≤◌, ◌+◌, ◌^◌, ◌++◌, ◌∷◌, [], IfOk, OnOk};

use plain_values::NoMemory;
use std::alloc::Global;
use std::collections::VecDeque;
use std::marker::Model;
use std::mem;

/// The number of entries of a piece, unless more are asked for at once.
const PIECE: usize = 1_024;

/// Entries in their order of arrival, in pieces that don't move. So a turn that adds an entry costs
/// the same at any length of the history.
///
/// `whole` is room for all of them as one list. Nothing is written there before
/// [`Pieces::into_list`], so until then it costs addresses and no memory.
#[derive(Drop)]
pub struct Pieces<E> {
    full: Vec<Vec<E>>,
    /// The number of entries in the full pieces.
    behind: usize,
    last: Vec<E>,
    spare: Vec<E>,
    whole: Vec<E>,
}

impl<E> Model for Pieces<E> {
    ghost use Rattle.std.specs.Prelude.{◌++◌, ◌+◌, ◌-◌, vec_len};
    ghost use Rattle.std.specs.Vec.{vec_capacity};
    ghost use Rattle.seat_desk.specs.Logs.{Log, log, entries_of, ArePieces};

    ghost Value = { Log E };

    ghost view = { λ p. log (entries_of p.full.items ++ p.last.items)
        (vec_capacity p.last - vec_len p.last + vec_capacity p.spare) };

    ghost invariant = { λ p. ArePieces p.full p.behind p.last p.spare p.whole };
}

impl<E: Drop> Pieces<E> {
    /// Returns an empty history without room for entries.
    pub fn new(alloc: Global) -> Pieces<E>
        ensures { (result.items ≡ []) × (result.room ≡ 0) }
    {
        Pieces {
            full: Vec::new(alloc),
            behind: 0,
            last: Vec::new(alloc),
            spare: Vec::new(alloc),
            whole: Vec::new(alloc),
        }
    }

    /// Makes room for `count` more entries.
    ///
    /// # Errors
    ///
    /// Returns `NoMemory` if memory runs out. The entries stay.
    pub fn reserve(&mut self, count: usize) -> Result<(), NoMemory>
        ensures items { self.new.items ≡ self.old.items }
        ensures room { self.old.room ≤ self.new.room }
        ensures ok { OnOk result (count ≤ self.new.room) }
        ensures bounded { self.new.room < 2 ^ 63 }
    {
        let left = self.last.capacity() - self.last.len();
        if count <= left.saturating_add(self.spare.capacity()) {
            return Ok(());
        }
        let size = count.max(PIECE);
        let total = all_of(self.behind, self.last.capacity(), size)?;
        let alloc = *self.last.allocator();
        if self.whole.capacity() < total {
            self.whole = Vec::with_capacity(alloc, total.saturating_mul(2))?;
        }
        self.full.reserve(1)?;
        self.spare = Vec::with_capacity(alloc, size)?;
        Ok(())
    }

    /// Adds the entry, for which there is room.
    pub fn push_reserved(&mut self, entry: E)
        requires { 0 < self.old.room }
        ensures items { self.new.items ≡ self.old.items ++ entry ∷ [] }
        ensures room { self.new.room + 1 ≡ self.old.room }
    {
        if self.last.len() == self.last.capacity() {
            let spare = mem::replace(&mut self.spare, Vec::new(*self.last.allocator()));
            let full = mem::replace(&mut self.last, spare);
            self.behind += full.len();
            self.full.push_reserved(full);
        }
        self.last.push_reserved(entry);
    }

    /// Returns all entries as one list. The function takes no memory.
    pub fn into_list(self) -> Vec<E>
        ensures { result.items ≡ self.items }
    {
        let Pieces {
            full,
            behind: _,
            mut last,
            spare: _,
            mut whole,
        } = self;
        let mut rest = VecDeque::from_vec(full);
        while let Some(mut piece) = rest.pop_front() {
            let Ok(()) = whole.append(&mut piece) else {
                unreachable!()
            };
        }
        let Ok(()) = whole.append(&mut last) else {
            unreachable!()
        };
        whole
    }
}

// Returns the sum, if it is a possible number of entries.
fn all_of(behind: usize, last: usize, spare: usize) -> Result<usize, NoMemory>
    ensures { IfOk result (λ n. n ≡ behind + last + spare) }
{
    let both = behind.checked_add(last).ok_or(NoMemory)?;
    both.checked_add(spare).ok_or(NoMemory)
}
