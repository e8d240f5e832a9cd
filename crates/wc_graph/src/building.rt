ghost use Rattle.std.specs.Prelude.{IfOk, length, map};
ghost use Rattle.wc_model.specs.Program.Graphs.{IsGraph};
ghost use Rattle.wc_graph.specs.Builds.{Builds};
ghost use Rattle.wc_graph.specs.Inner.Assemblies.{IsAssembled};
ghost use Rattle.wc_graph.specs.Inner.Lists.{Has};
ghost use Rattle.wc_graph.specs.Inner.Numberings.{AreNumbered, IsSized};

use crate::assembly::{contexts, nodes, steps};
use crate::numbering::{Numbering, number_frames, number_places};
use crate::survey::{Survey, survey_of};
use std::alloc::{AllocError, Global};
use wc_base::{Addr, Trouble};
use wc_model::{Facts, Graph, Image, Table};

// Steps are numbered below this.
const ABOVE: usize = 0x1_0000_0000;

// The graph of the live positions, with their new numbers.
fn assemble(
    alloc: Global,
    image: &Image,
    survey: &Survey,
    frames: &Numbering,
    places: &Numbering,
) -> Result<Graph, AllocError>
    requires sized { IsSized survey.now }
    requires frames { AreNumbered (length survey.now.code.frames.keys) frames.now }
    requires places { AreNumbered (length survey.now.code.places.keys) places.now }
    requires started { Has places.now.order.items 0 }
    ensures { IfOk result (IsAssembled image.now survey.now frames.now places.now) }
{
    let ranks = frames.numbers.as_slice();
    let order = places.order.as_slice();
    let numbers = places.numbers.as_slice();
    let contexts = contexts(
        alloc,
        survey.code.frames.as_slice(),
        frames.order.as_slice(),
        ranks,
    )?;
    let nodes = nodes(alloc, image, survey.code.places.as_slice(), order, ranks)?;
    let steps = steps(alloc, &survey.code.leaps, order, numbers)?;
    if ABOVE <= steps.len() {
        return Err(AllocError);
    }
    Ok(Graph {
        contexts: Table::new(contexts),
        nodes: Table::new(nodes),
        steps: Table::new(steps),
        start: numbers[0].unwrap(),
    })
}

/// The graph of the function at `entry` with its calls expanded: its positions on a walk from its start to its
/// exit, by their call stacks and then by their addresses, and their steps.
///
/// # Errors
/// `TooLarge` where more than 100,000 positions are reached. Else the fault with the least address, at one address
/// the one with the least number: `OutOfText`, `UnknownInstruction`, `Unresolved` or `Recursion`. Else `NoExit`
/// where no walk leads to the exit. Want of memory, also for a graph of 2^32 steps or more.
pub fn build(alloc: Global, image: &Image, facts: &Facts, entry: Addr) -> Result<Graph, Trouble>
    ensures graph { Builds image.now (map (λ f. f.1) facts.now) entry result }
    ensures numbers { IfOk result IsGraph }
{
    let survey = match survey_of(alloc, image, facts, entry) {
        Err(trouble) => return Err(trouble),
        Ok(survey) => survey,
    };
    let frames = number_frames(alloc, &survey)?;
    let places = number_places(alloc, &survey, &frames)?;
    Ok(assemble(alloc, image, &survey, &frames, &places)?)
}
