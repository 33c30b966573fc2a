// The last action that makes each path.
ghost use Rattle.std.specs.Prelude.{◌≡◌, ◌≤◌, ℕ, List, length, OnOk, IfOk, if◌then◌else◌, Some};
ghost use Rattle.std.specs.Str.{bytes_eq};
ghost use Rattle.list_actions.specs.Order.{is_among, is_late, last_from};
ghost use Rattle.run_plan.specs.Limits.{most_actions};

use crate::ListAction;
use indexmap::IndexMap;
use plain_values::{NoMemory, Text};
use std::alloc::Global;

/// The number of the last action that makes each path.
#[derive(Drop)]
pub struct LastMakers {
    makers: IndexMap<String, u32>,
}

impl LastMakers {
    ghost use Rattle.list_actions.specs.Makers.{last_maker};

    /// Returns the table of these actions.
    pub fn of(alloc: Global, actions: &[ListAction]) -> Result<LastMakers, NoMemory>
        requires { length actions.now ≤ most_actions }
        ensures { IfOk result (λ m. (q : List ℕ) → last_maker m q ≡ last_from 0 actions.now q) }
    {
        let mut table = LastMakers {
            makers: IndexMap::new(alloc),
        };
        let mut number = 0;
        for action in actions {
            table.note_all(alloc, action.outputs.as_slice(), number)?;
            number += 1;
        }
        Ok(table)
    }

    fn note_all(&mut self, alloc: Global, paths: &[Text], number: u32) -> Result<(), NoMemory>
        ensures { OnOk result ((q : List ℕ)
            → last_maker self.new q ≡
            (if is_among paths.now q then Some number else last_maker self.old q)) }
    {
        for path in paths {
            self.note(alloc, path.as_str(), number)?;
        }
        Ok(())
    }

    fn note(&mut self, alloc: Global, path: &str, number: u32) -> Result<(), NoMemory>
        ensures { OnOk result ((q : List ℕ)
            → last_maker self.new q ≡
            (if bytes_eq path.now q then Some number else last_maker self.old q)) }
    {
        self.makers.insert(String::from_str(alloc, path)?, number)?;
        Ok(())
    }

    /// Returns true if the action with this number, or a later one, makes this path.
    pub fn is_late(&self, path: &str, number: u32) -> bool
        ensures { result ≡ is_late number (last_maker self.now path.now) }
    {
        match self.makers.get(path) {
            None => false,
            Some(last) => number <= *last,
        }
    }
}
