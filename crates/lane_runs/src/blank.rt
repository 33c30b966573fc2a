//! The room for everything that a run leaves.
ghost use Rattle.std.specs.Prelude.{IfOk};
ghost use Rattle.lane_runs.specs.Blanks.{IsBlankFor};

use crate::halves::EndedLine;
use plain_values::NoMemory;
use proxy_laws::EndedFeed;
use std::alloc::Global;

/// Empty lists, with room for everything that a run leaves. They are made before the lanes begin, so
/// that no memory is needed to arrange what the lanes leave.
#[derive(Drop)]
pub struct Blank<B, D, T, K, P> {
    pub(crate) berths: Vec<B>,
    pub(crate) lines: Vec<EndedLine<D, T, K>>,
    pub(crate) unsaid: Vec<Option<EndedFeed<D, K>>>,
    pub(crate) places: Vec<P>,
}

impl<B: Drop, D: Drop, T: Drop, K: Drop, P: Drop> Blank<B, D, T, K, P> {
    /// Returns room for `berths` berths, `lines` lines and `places` places.
    ///
    /// # Errors
    ///
    /// Returns `NoMemory` if memory runs out.
    pub(crate) fn new(
        alloc: Global,
        berths: usize,
        lines: usize,
        places: usize,
    ) -> Result<Blank<B, D, T, K, P>, NoMemory>
        ensures { IfOk result (λ blank. IsBlankFor berths lines places blank) }
    {
        Ok(Blank {
            berths: Vec::with_capacity(alloc, berths)?,
            lines: Vec::with_capacity(alloc, lines)?,
            unsaid: Vec::with_capacity(alloc, berths)?,
            places: Vec::with_capacity(alloc, places)?,
        })
    }
}
