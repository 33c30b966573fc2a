// Keys with their numbers. A key is looked up by its hash, without comparing it with all others.
ghost use Rattle.std.specs.Prelude.{◌≡◌, [], Some, not, position, IfOk, OnOk};
ghost use Rattle.std.specs.Str.{bytes_eq};
ghost use Rattle.action_list.specs.Keys.{with_bytes};
ghost use Rattle.list_actions.specs.Order.{is_among};

use indexmap::IndexSet;
use plain_values::NoMemory;
use std::alloc::Global;
use std::marker::Model;

/// Different keys in the order in which they came. A contract sees the list of their bytes.
#[derive(Drop)]
pub struct KeyTable<'a> {
    keys: IndexSet<&'a [u8]>,
}

impl<'a> Model for KeyTable<'a> {
    ghost use Rattle.std.specs.Prelude.{List, ℕ, map};

    ghost Value = { List (List ℕ) };

    ghost view = { λ t. map (λ k. k.now) t.keys.keys };
}

impl<'a> KeyTable<'a> {
    /// Returns a table with no key.
    pub fn new(alloc: Global) -> KeyTable<'a>
        ensures { result ≡ [] }
    {
        KeyTable {
            keys: IndexSet::new(alloc),
        }
    }

    /// Returns the number of the key, and whether it is new. A new key is added, and its number is the next one.
    pub fn number(&mut self, key: &'a [u8]) -> Result<(usize, bool), NoMemory>
        ensures number { IfOk result
            (λ r. position (λ k. bytes_eq k key.now) self.new ≡ Some r.0) }
        ensures fresh { IfOk result (λ r. r.1 ≡ not (is_among self.old key.now)) }
        ensures added { OnOk result (self.new ≡ with_bytes self.old key.now) }
    {
        Ok(self.keys.insert_full(key)?)
    }
}
