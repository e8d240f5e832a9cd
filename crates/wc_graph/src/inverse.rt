ghost use Rattle.std.specs.Prelude.{◌≤◌, IfOk, length};
ghost use Rattle.wc_graph.specs.Inner.Lists.{Inside};
ghost use Rattle.wc_graph.specs.Inner.Inverses.{IsInverse};

use crate::lists::filled;
use std::alloc::{AllocError, Global};

/// Per number its place in a list, if it has one.
pub fn inverse(alloc: Global, count: usize, listed: &[u32]) -> Result<Vec<Option<u32>>, AllocError>
    requires few { length listed.now ≤ 100000 }
    requires inside { Inside count listed.now }
    ensures { IfOk result (IsInverse count listed.now) }
{
    let mut numbers = filled(alloc, count, None)?;
    for place in 0..listed.len() {
        numbers[listed[place] as usize] = Some(place as u32);
    }
    Ok(numbers)
}
