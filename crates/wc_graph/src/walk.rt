ghost use Rattle.std.specs.Prelude.{◌<◌, ◌≤◌, IfOk, length};
ghost use Rattle.wc_graph.specs.Inner.Codes.{AreFrames};
ghost use Rattle.wc_graph.specs.Inner.Families.{IsFamily};
ghost use Rattle.wc_graph.specs.Inner.Walks.{IsWalked};

use crate::families::add_falling;
use crate::frames::Frame;
use crate::sources::Sources;
use std::alloc::{AllocError, Global};

/// The live frames in the order of their stacks: a frame, and then those that stand on it, one after the other.
pub fn listed(
    alloc: Global,
    frames: &[Frame],
    live: &[bool],
    kids: &Sources,
) -> Result<Vec<u32>, AllocError>
    requires frames { AreFrames frames.now }
    requires few { length frames.now ≤ 100000 }
    requires some { 0 < length frames.now }
    requires kids { IsFamily frames.now live.now (length frames.now) kids.now }
    ensures { IfOk result (λ v. IsWalked frames.now live.now v.items) }
{
    let mut listed = Vec::new(alloc);
    let mut work = Vec::new(alloc);
    let mut own = Vec::new(alloc);
    let mut keys = Vec::new(alloc);
    work.push(0u32)?;
    for round in 0..frames.len() + 1 {
        let Some(frame) = work.pop() else {
            return Ok(listed);
        };
        listed.push(frame)?;
        kids.into.gather(frame as usize, &mut own)?;
        add_falling(frames, own.as_slice(), &mut keys, &mut work)?;
    }
    Ok(listed)
}
