ghost use Rattle.std.specs.Prelude.{◌≡◌, ◌≤◌, ◌<◌, ◌++◌, ◌∷◌, [], ℕ, List, length, take, drop, false, OnOk};

use plain_values::NoMemory;
use std::alloc::Global;
use std::marker::Model;

/// The bytes that a child has given and that weren't taken yet. A contract sees their list.
#[derive(Drop)]
pub struct Ready {
    bytes: Vec<u8>,
    at: usize,
    ghost in_range: { at ≤ length bytes.items },
}

impl Model for Ready {
    ghost Value = { List ℕ };

    ghost view = { λ r. drop r.at r.bytes.items };
}

impl Ready {
    pub fn new(alloc: Global) -> Ready
        ensures { result ≡ [] }
    {
        Ready {
            bytes: Vec::new(alloc),
            at: 0,
        }
    }

    pub fn is_empty(&self) -> bool
        ensures { result ≡ false → 0 < length self.now }
    {
        self.at == self.bytes.len()
    }

    /// Appends bytes.
    pub fn add(&mut self, bytes: &[u8]) -> Result<(), NoMemory>
        ensures { OnOk result (self.new ≡ self.old ++ bytes.now) }
    {
        self.bytes.extend_from_slice(bytes)?;
        Ok(())
    }

    /// Takes all bytes that fit into `into`, and returns their number.
    #[tactic(auto, using(crate::proofs::Lists::front_and_rest))]
    pub fn take(&mut self, into: &mut [u8]) -> usize
        requires some { 0 < length self.old }
        requires room { 0 < length into.old }
        ensures some { 0 < result }
        ensures room { result ≤ length into.new }
        ensures taken { self.old ≡ take result into.new ++ self.new }
    {
        let count = copy_front(&self.bytes[self.at..], into);
        self.at += count;
        count
    }
}

// Copies all bytes that fit, and returns their number.
fn copy_front(from: &[u8], into: &mut [u8]) -> usize
    requires some { 0 < length from.now }
    requires room { 0 < length into.old }
    ensures some { 0 < result }
    ensures of { result ≤ length from.now }
    ensures room { result ≤ length into.new }
    ensures same { take result into.new ≡ take result from.now }
{
    let count = from.len().min(into.len());
    into[..count].copy_from_slice(&from[..count]);
    count
}
