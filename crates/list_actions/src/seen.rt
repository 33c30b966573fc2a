// Strings that were seen. They are looked up without comparing all of them.
ghost use Rattle.std.specs.Prelude.{◌≡◌, ◌||◌, ℕ, List, not, IfOk, OnOk, false};
ghost use Rattle.std.specs.Str.{bytes_eq};
ghost use Rattle.indexmap.specs.IndexSet.{contains_text};

use indexmap::IndexSet;
use plain_values::NoMemory;
use std::alloc::Global;

/// The strings that were seen.
#[derive(Drop)]
pub struct Seen {
    pub texts: IndexSet<String>,
}

impl Seen {
    ghost use Rattle.list_actions.specs.Seen.{has_seen};

    pub fn new(alloc: Global) -> Seen
        ensures { (q : List ℕ) → has_seen result q ≡ false }
    {
        Seen {
            texts: IndexSet::new(alloc),
        }
    }

    /// Notes a string, and returns true if it is new.
    pub fn note(&mut self, alloc: Global, text: &str) -> Result<bool, NoMemory>
        ensures fresh { IfOk result (λ b. b ≡ not (has_seen self.old text.now)) }
        ensures noted { OnOk result ((q : List ℕ)
            → has_seen self.new q ≡ (bytes_eq text.now q || has_seen self.old q)) }
    {
        Ok(self.texts.insert(String::from_str(alloc, text)?)?)
    }
}
