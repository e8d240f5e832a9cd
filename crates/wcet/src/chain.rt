//! The analysis of one function, from its inputs alone, one phase after the other. After implicit path enumeration
//! (Li and Malik 1995) over expanded calls (Sharir and Pnueli 1981), with the categories of Ferdinand and Wilhelm 1999.
ghost use Rattle.std.specs.Prelude.{IfOk};
ghost use Rattle.wcet.specs.Chained.{Chained, IsOnly, given};
ghost use Rattle.wc_model.specs.Workspace.Chain.{chain as chain_of};

use crate::costs::costs_of;
use crate::optimum::{bound_of, solution_of};
use std::alloc::{AllocError, Global};
use std::thread::Threads;
use wc_base::Trouble;
use wc_bounds::bounds;
use wc_elf::find;
use wc_graph::build;
use wc_model::{Facts, Hardware, Image, Outcome};
use wc_nest::nest;
use wc_system::system;

/// The bound in cycles of the function that the name means, or the fault of the first phase that refuses.
fn analyse<R: Threads + Sync>(
    rt: &R,
    alloc: Global,
    image: &Image,
    facts: &Facts,
    hardware: &Hardware,
    name: &[u8],
) -> Result<u128, Trouble>
    ensures { Chained (given image.now facts.now hardware.now) name.now result }
{
    let entry = match find(image, name) {
        Ok(entry) => entry,
        Err(fault) => return Err(Trouble::Fault(fault)),
    };
    let graph = build(alloc, image, facts, entry)?;
    let nest = nest(alloc, &graph)?;
    let bounds = bounds(alloc, &graph, &nest, facts)?;
    let costs = costs_of(rt, alloc, &graph, hardware)?;
    let system = system(alloc, &graph, &nest, &bounds, &costs, facts)?;
    let solution = solution_of(alloc, &graph, &nest, &system)?;
    Ok(bound_of(&system, &solution))
}

/// The outcome for a name: the bound in cycles, or the first fault. Never `Outcome::Memory`.
pub fn chain<R: Threads + Sync>(
    rt: &R,
    alloc: Global,
    image: &Image,
    facts: &Facts,
    hardware: &Hardware,
    name: &[u8],
) -> Result<Outcome, AllocError>
    ensures outcome { IfOk result (chain_of (given image.now facts.now hardware.now) name.now) }
    ensures only { IfOk result (IsOnly (given image.now facts.now hardware.now) name.now) }
{
    match analyse(rt, alloc, image, facts, hardware, name) {
        Ok(bound) => Ok(Outcome::Bound(bound)),
        Err(Trouble::Fault(fault)) => Ok(Outcome::Fault(fault)),
        Err(Trouble::Memory(error)) => Err(error),
    }
}
