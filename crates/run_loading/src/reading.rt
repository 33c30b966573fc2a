// One read of a file.
ghost use Rattle.outside.specs.Causes.{Counts};
ghost use Rattle.outside.specs.Told.{SameFloor};
ghost use Rattle.run_loading.specs.Reads.{IsFloorFailed, Leads, OneRead, end_of};

use crate::RunFault;
use outside::{Floor, Read};
use plain_values::{Blob, Text};
use std::alloc::Global;

/// Reads one file. If the floor answers anything other than Found, returns a fault.
pub fn read_found<F: Floor>(alloc: Global, floor: &mut F, path: &str) -> Result<Blob, RunFault>
    ensures course { Leads (F.told floor.old) (F.told floor.new) result (OneRead path.now) }
    ensures floor { Counts (F.told floor.old).faults (F.told floor.new).faults
        (IsFloorFailed (end_of result)) }
    ensures files { SameFloor (F.told floor.old) (F.told floor.new) }
{
    match floor.read(path)? {
        Read::Found(bytes) => Ok(bytes),
        Read::Absent => Err(RunFault::Absent {
            path: Text::copy_of(alloc, path)?,
        }),
        Read::Failed => Err(RunFault::FloorFailed {
            path: Text::copy_of(alloc, path)?,
        }),
    }
}
