ghost use Rattle.std.specs.Prelude.{IfOk};
ghost use Rattle.wc_graph.specs.Inner.Numbers.{HasNumber};

use crate::frames::Frame;
use indexmap::IndexSet;
use std::alloc::AllocError;

/// The number of a frame, which goes last where it is new.
pub fn number_of_frame(frames: &mut IndexSet<Frame>, frame: Frame) -> Result<usize, AllocError>
    ensures { IfOk result (HasNumber frames.old.keys frames.new.keys frame) }
{
    let (number, _) = frames.insert_full(frame)?;
    Ok(number)
}
