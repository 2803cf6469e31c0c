ghost use Rattle.std.specs.Prelude.{IfOk, IfErr};
ghost use Rattle.tree.specs.Calls.{Opened, OpenRefused};
ghost use Rattle.tree.specs.Of.{state_of};

use crate::refusal::OpenError;
use crate::store::Store;
use names::table::Names;
use std::alloc::Global;

const MIN_ENTRIES: usize = 16;

const MAX_ENTRIES: usize = 4096;

const MAX_UNITS: usize = 65536;

// The measures are parameters: a struct of them would be made for this one call.
impl Store {
    // A tree with places for so many nodes and so much folded text, over a copy of the source text.
    pub(crate) fn open(
        heap: Global,
        entries: usize,
        folded: usize,
        source: &[u16],
    ) -> Result<Store, OpenError>
        ensures ok { IfOk result (λ s. Opened entries folded source.now (state_of s)) }
        ensures refused { IfErr result (OpenRefused entries folded source.now) }
    {
        if !(MIN_ENTRIES..=MAX_ENTRIES).contains(&entries)
            || folded > MAX_UNITS
            || source.len() > MAX_UNITS
        {
            return Err(OpenError::OutsideLimits);
        }
        Ok(Store {
            entries: Vec::with_capacity(heap, entries)?,
            capacity: entries,
            names: Names::new(),
            source: Vec::from_slice(heap, source)?,
            folded: Vec::with_capacity(heap, folded)?,
            room: folded,
            root: None,
        })
    }
}
