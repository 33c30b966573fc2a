ghost use Rattle.std.specs.Prelude.{◌≡◌, ◌++◌, [], List};
ghost use base.Fml.{ftrue};
ghost use base.Stored.{coded_list};

use std::marker::{Model, PhantomData};

/// A note: for example references to the parts of a call, from which clauses build the call.
pub trait Note<T> {
    ghost noted: { Self → List T };
}

/// The list of the notes, the oldest first. It has no bytes and owns nothing.
pub struct Told<T> {
    marker: PhantomData<T>,
    pub ghost items: { List T } by { coded_list T.code },
}

impl<T> Model for Told<T> {
    ghost also_owns = { λ _. ftrue };
}

// It has no bytes, so a thread can't meet anything that another one has left.
unsafe impl<T> Send for Told<T> {}

impl<T> Told<T> {
    /// Returns a record without notes.
    pub fn new() -> Told<T>
        ensures { result.items ≡ [] }
    {
        Told {
            marker: PhantomData,
        }
    }

    /// Returns the record with this note appended.
    pub fn with<N: Note<T>>(&self, note: &N) -> Told<T>
        ensures { result.items ≡ self.now.items ++ N.noted note.now }
    {
        let _ = note;
        Told {
            marker: PhantomData,
        }
    }
}

impl<T> Drop for Told<T> {
    fn drop(self) {
        let Self { marker: _ } = self;
    }
}
