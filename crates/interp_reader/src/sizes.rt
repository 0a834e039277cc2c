//! The size of each sort: as many elements as its closure lists, or one.
ghost use Rattle.std.specs.Prelude.{◌≡◌, map, max, IfOk};

use nxf_base::{List, Memory};
use std::alloc::Global;

/// Each count, or 1 where it is 0.
pub fn sizes_of(alloc: Global, counts: &[u32]) -> Result<List<u32>, Memory>
    ensures { IfOk result (λ sizes. sizes ≡ map (max 1) counts.now) }
{
    let mut sizes = List::with_capacity(alloc, counts.len())?;
    for count in counts {
        sizes.push((*count).max(1))?;
    }
    Ok(sizes)
}
