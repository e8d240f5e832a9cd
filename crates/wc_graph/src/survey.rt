ghost use Rattle.std.specs.Prelude.{◌≡◌, ◌≤◌, IfOk, List, map, length};
ghost use Rattle.wc_graph.specs.declared.code.Code.{Code};
ghost use Rattle.wc_graph.specs.declared.frames.Leap.{Leap};
ghost use Rattle.wc_graph.specs.Inner.Lists.{Has};
ghost use Rattle.wc_graph.specs.Inner.Sources.{AreTargets};
ghost use Rattle.wc_graph.specs.Inner.Surveys.{IsLive, Surveys};

use crate::code::Code;
use crate::live::spread;
use crate::rows::Rows;
use crate::search::explore;
use crate::sources::sources_of;
use crate::stated::Stated;
use std::alloc::{AllocError, Global};
use wc_base::{Addr, Fault, Trouble};
use wc_model::{Facts, Image};

/// The positions that were found, and which of them lie on a walk from the start to the exit.
#[derive(Drop)]
pub struct Survey {
    pub code: Code,
    pub live: Vec<bool>,
}

// Which positions lead to the exit.
fn live_of(alloc: Global, leaps: &Rows) -> Result<Vec<bool>, AllocError>
    requires few { length leaps.now ≤ 100000 }
    requires inside { (own : List Leap) → Has leaps.now own → AreTargets (length leaps.now) own }
    ensures { IfOk result (λ v. IsLive leaps.now v.items) }
{
    let sources = sources_of(alloc, leaps)?;
    spread(alloc, &sources.into, sources.exits.as_slice())
}

/// All positions of the function at `entry` and those on a walk to its exit, or why there is no graph.
pub fn survey_of(
    alloc: Global,
    image: &Image,
    facts: &Facts,
    entry: Addr,
) -> Result<Survey, Trouble>
    ensures { Surveys image.now (map (λ f. f.1) facts.now) entry result }
{
    let stated = Stated::new(alloc, facts)?;
    let Some(search) = explore(alloc, image, &stated, entry)? else {
        return Err(Trouble::Fault(Fault::TooLarge));
    };
    if let Some(faulty) = search.least {
        return Err(Trouble::Fault(faulty.fault));
    }
    let live = live_of(alloc, &search.code.leaps)?;
    if !live[0] {
        return Err(Trouble::Fault(Fault::NoExit));
    }
    Ok(Survey {
        code: search.code,
        live,
    })
}
