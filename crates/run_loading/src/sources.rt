// The source files of a list, each path read once.
ghost use Rattle.std.specs.Prelude.{◌≡◌, ◌∷◌, ◌++◌, [], None, OnOk, filter, Some};
ghost use Rattle.std.specs.Option.{option_copied, IsSome};
ghost use Rattle.list_actions.specs.Producers.{producer_of};
ghost use Rattle.list_actions.specs.Made.{maker_of};
ghost use Rattle.outside.specs.Causes.{Counts};
ghost use Rattle.outside.specs.Told.{SameFloor};
ghost use Rattle.outside.specs.Floor.{file_at};
ghost use Rattle.run_loading.specs.Reads.{IsFloorFailed, Leads, end_of};
ghost use Rattle.run_loading.specs.Sources.{ReadsOn, SourcesRead, held};
ghost use Rattle.run_loading.specs.Wanted.{is_source, paths_of_action, source_file, wanted};

use crate::RunFault;
use crate::reading::read_found;
use action_list::{ListAction, Producers};
use indexmap::IndexMap;
use outside::Floor;
use plain_values::{Blob, NoMemory, Text};
use std::alloc::Global;

/// The files that were found, by path, in the order in which they were read.
#[derive(Drop)]
pub struct Sources {
    files: IndexMap<String, Blob>,
}

/// Reads the files that the actions need, up to the first path that isn't found.
pub fn read_sources<F: Floor>(
    alloc: Global,
    floor: &mut F,
    actions: &[ListAction],
    producers: &Producers,
) -> Result<Sources, RunFault>
    requires { producer_of producers.now ≡ maker_of actions.now }
    ensures course { Leads (F.told floor.old) (F.told floor.new) result
        (SourcesRead (wanted actions.now)) }
    ensures floor { Counts (F.told floor.old).faults (F.told floor.new).faults
        (IsFloorFailed (end_of result)) }
    ensures files { SameFloor (F.told floor.old) (F.told floor.new) }
{
    let mut sources = Sources::new(alloc);
    for action in actions {
        sources.read_action(alloc, floor, action, producers)?;
    }
    Ok(sources)
}

impl Sources {
    fn new(alloc: Global) -> Sources
        ensures { held result ≡ [] }
    {
        Sources {
            files: IndexMap::new(alloc),
        }
    }

    fn get(&self, path: &str) -> Option<&Blob>
        ensures { option_copied result ≡ file_at (held self.now) path.now }
    {
        self.files.get(path)
    }

    /// Returns the contents of a file that was found.
    pub fn bytes_at(&self, path: &str) -> &Blob
        requires { IsSome (file_at (held self.now) path.now) }
        ensures { file_at (held self.now) path.now ≡ Some result.now }
    {
        self.get(path).unwrap()
    }

    fn note(&mut self, alloc: Global, path: &str, bytes: Blob) -> Result<(), NoMemory>
        requires { file_at (held self.old) path.now ≡ None }
        ensures { OnOk result (held self.new ≡ held self.old ++ source_file path.now bytes ∷ []) }
    {
        self.files.insert(String::from_str(alloc, path)?, bytes)?;
        Ok(())
    }

    // Reads an action's tools and then its source inputs.
    fn read_action<F: Floor>(
        &mut self,
        alloc: Global,
        floor: &mut F,
        action: &ListAction,
        producers: &Producers,
    ) -> Result<(), RunFault>
        ensures course { Leads (F.told floor.old) (F.told floor.new) result
            (ReadsOn (held self.old) (paths_of_action (producer_of producers.now) action.now)
            (held self.new)) }
        ensures floor { Counts (F.told floor.old).faults (F.told floor.new).faults
            (IsFloorFailed (end_of result)) }
        ensures files { SameFloor (F.told floor.old) (F.told floor.new) }
    {
        self.read_all(alloc, floor, action.tools.as_slice())?;
        self.read_inputs(alloc, floor, action.inputs.as_slice(), producers)
    }

    // Reads the paths that weren't read before.
    fn read_all<F: Floor>(
        &mut self,
        alloc: Global,
        floor: &mut F,
        paths: &[Text],
    ) -> Result<(), RunFault>
        ensures course { Leads (F.told floor.old) (F.told floor.new) result
            (ReadsOn (held self.old) paths.now (held self.new)) }
        ensures floor { Counts (F.told floor.old).faults (F.told floor.new).faults
            (IsFloorFailed (end_of result)) }
        ensures files { SameFloor (F.told floor.old) (F.told floor.new) }
    {
        for path in paths {
            self.read_new(alloc, floor, path.as_str())?;
        }
        Ok(())
    }

    // Reads the paths that no action makes and that weren't read before.
    fn read_inputs<F: Floor>(
        &mut self,
        alloc: Global,
        floor: &mut F,
        paths: &[Text],
        producers: &Producers,
    ) -> Result<(), RunFault>
        ensures course { Leads (F.told floor.old) (F.told floor.new) result
            (ReadsOn (held self.old) (filter (is_source (producer_of producers.now)) paths.now)
            (held self.new)) }
        ensures floor { Counts (F.told floor.old).faults (F.told floor.new).faults
            (IsFloorFailed (end_of result)) }
        ensures files { SameFloor (F.told floor.old) (F.told floor.new) }
    {
        for path in paths {
            self.read_input(alloc, floor, path.as_str(), producers)?;
        }
        Ok(())
    }

    // Reads an input, unless an action makes it or it was read before.
    fn read_input<F: Floor>(
        &mut self,
        alloc: Global,
        floor: &mut F,
        path: &str,
        producers: &Producers,
    ) -> Result<(), RunFault>
        ensures course { Leads (F.told floor.old) (F.told floor.new) result
            (ReadsOn (held self.old)
            (filter (is_source (producer_of producers.now)) (path.now ∷ [])) (held self.new)) }
        ensures floor { Counts (F.told floor.old).faults (F.told floor.new).faults
            (IsFloorFailed (end_of result)) }
        ensures files { SameFloor (F.told floor.old) (F.told floor.new) }
    {
        match producers.get(path) {
            Some(_) => Ok(()),
            None => self.read_new(alloc, floor, path),
        }
    }

    // Reads a path, unless it was read before.
    fn read_new<F: Floor>(
        &mut self,
        alloc: Global,
        floor: &mut F,
        path: &str,
    ) -> Result<(), RunFault>
        ensures course { Leads (F.told floor.old) (F.told floor.new) result
            (ReadsOn (held self.old) (path.now ∷ []) (held self.new)) }
        ensures floor { Counts (F.told floor.old).faults (F.told floor.new).faults
            (IsFloorFailed (end_of result)) }
        ensures files { SameFloor (F.told floor.old) (F.told floor.new) }
    {
        match self.get(path) {
            Some(_) => Ok(()),
            None => {
                let bytes = read_found(alloc, floor, path)?;
                self.note(alloc, path, bytes)?;
                Ok(())
            }
        }
    }
}
