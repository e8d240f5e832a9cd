ghost use Rattle.std.specs.Prelude.{◌<◌, IfOk, length};
ghost use Rattle.wc_graph.specs.Inner.Codes.{AreFrames};
ghost use Rattle.wc_graph.specs.Inner.Opened.{AreOpened};
ghost use Rattle.wc_graph.specs.Inner.Ways.{TellsTurns};

use crate::frames::{Frame, Place, Turn};
use crate::opened::Opened;
use crate::stated::Stated;
use crate::ways::ways;
use std::alloc::{AllocError, Global};
use wc_base::Fault;
use wc_model::Image;

/// The ways out of a position, in place of what was there; or why it can't be analysed.
pub fn turns_of(
    alloc: Global,
    image: &Image,
    stated: &Stated,
    frames: &[Frame],
    opened: &mut Opened,
    place: Place,
    turns: &mut Vec<Turn>,
) -> Result<Option<Fault>, AllocError>
    requires frames { AreFrames frames.now }
    requires opened { AreOpened frames.now opened.old }
    requires inside { place.frame < length frames.now }
    ensures opened { IfOk result (λ _. AreOpened frames.now opened.new) }
    ensures turns { IfOk result (TellsTurns image.now stated.now frames.now place turns.new.items) }
{
    let told = ways(alloc, image, stated, place.pc, turns)?;
    if let Some(fault) = told {
        return Ok(Some(fault));
    }
    opened.follow(frames)?;
    if opened.reopens(frames, place.frame, turns.as_slice()) {
        return Ok(Some(Fault::Recursion(place.pc)));
    }
    Ok(None)
}
