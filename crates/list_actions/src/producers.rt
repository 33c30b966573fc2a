// The action that makes each path, and the number of that output.
ghost use Rattle.std.specs.Prelude.{◌≡◌, ◌≤◌, ◌+◌, ◌^◌, ◌<◌, ℕ, List, length, None, IfOk, OnOk, Some, if◌then◌else◌};
ghost use Rattle.std.specs.List.{filter_map};
ghost use Rattle.std.specs.Str.{bytes_eq};
ghost use Rattle.std.specs.Option.{option_copied};
ghost use Rattle.list_actions.specs.Made.{producer_in};

use indexmap::IndexMap;
use plain_values::{Items, NoMemory, Text};
use run_plan::Maker;
use std::alloc::Global;

/// The action that makes each path, and the number of that output.
#[derive(Drop)]
pub struct Producers {
    makers: IndexMap<String, Maker>,
}

impl Producers {
    ghost use Rattle.list_actions.specs.Producers.{producer_of};

    pub fn new(alloc: Global) -> Producers
        ensures { (q : List ℕ) → producer_of result q ≡ None }
    {
        Producers {
            makers: IndexMap::new(alloc),
        }
    }

    /// Notes the outputs of an action.
    pub fn note_all(&mut self, alloc: Global, action: u32, outputs: &[Text]) -> Result<(), NoMemory>
        requires { length outputs.now ≤ 256 }
        ensures { OnOk result ((q : List ℕ)
            → producer_of self.new q
            ≡ producer_in (producer_of self.old q) q action 0 outputs.now) }
    {
        let mut output = 0;
        for path in outputs {
            self.note(alloc, path.as_str(), Maker { action, output })?;
            output += 1;
        }
        Ok(())
    }

    fn note(&mut self, alloc: Global, path: &str, maker: Maker) -> Result<(), NoMemory>
        ensures { OnOk result ((q : List ℕ)
            → producer_of self.new q ≡
            (if bytes_eq path.now q then Some maker else producer_of self.old q)) }
    {
        self.makers.insert(String::from_str(alloc, path)?, maker)?;
        Ok(())
    }

    /// Returns the maker of a path.
    pub fn get(&self, path: &str) -> Option<Maker>
        ensures { result ≡ producer_of self.now path.now }
    {
        self.makers.get(path).copied()
    }

    /// Returns the makers of the paths, in order. A path that no action makes is left out.
    ///
    /// # Errors
    ///
    /// Returns `NoMemory` if memory runs out.
    pub fn makers_of(&self, alloc: Global, paths: &[Text]) -> Result<Items<Maker>, NoMemory>
        ensures { IfOk result (λ m. m ≡ filter_map (producer_of self.now) paths.now) }
    {
        let mut makers = Vec::new(alloc);
        for path in paths {
            if let Some(maker) = self.get(path.as_str()) {
                makers.push(maker)?;
            }
        }
        Ok(Items::of(makers))
    }
}
