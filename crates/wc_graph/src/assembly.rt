ghost use Rattle.std.specs.Prelude.{◌≡◌, ◌<◌, ◌≤◌, IfOk, IfSome, List, length, map, option_and_then};
ghost use Rattle.std.specs.List.{flat_map};
ghost use Rattle.wc_model.specs.Program.Steps.{insn_at};
ghost use Rattle.wc_graph.specs.declared.frames.Leap.{Leap};
ghost use Rattle.wc_graph.specs.Inner.Assemblies.{AddsNode, AddsStep, AddsSteps, context_of, node_of, steps_from};
ghost use Rattle.wc_graph.specs.Inner.Codes.{AreFrames};
ghost use Rattle.wc_graph.specs.Inner.Lists.{Has, Inside};
ghost use Rattle.wc_graph.specs.Inner.Ordered.{AreWithin, rank_at};
ghost use Rattle.wc_graph.specs.Inner.Sources.{AreTargets};

use crate::frames::{Frame, Leap, Place};
use crate::rows::Rows;
use std::alloc::{AllocError, Global};
use wc_a32::insn;
use wc_base::Addr;
use wc_model::{Context, Image, Insn, Node, Step};

// The rank of the frame below.
fn rank_below(parent: Option<u32>, ranks: &[Option<u32>]) -> Option<u32>
    requires { IfSome parent (λ j. j < length ranks.now) }
    ensures { result ≡ option_and_then (rank_at ranks.now) parent }
{
    ranks[parent? as usize]
}

/// The frames as contexts, by their ranks.
pub fn contexts(
    alloc: Global,
    frames: &[Frame],
    listed: &[u32],
    ranks: &[Option<u32>],
) -> Result<Vec<Context>, AllocError>
    requires frames { AreFrames frames.now }
    requires inside { Inside (length frames.now) listed.now }
    requires count { length ranks.now ≡ length frames.now }
    ensures { IfOk result (λ v. v.items ≡ map (context_of frames.now ranks.now) listed.now) }
{
    let mut contexts = Vec::with_capacity(alloc, listed.len())?;
    for number in listed {
        let frame = frames[*number as usize];
        contexts.push(Context {
            parent: rank_below(frame.parent, ranks),
            returns: frame.returns,
            callee: frame.callee,
        })?;
    }
    Ok(contexts)
}

// The instruction at an address, if there is a known one.
fn insn_at(image: &Image, at: Addr) -> Option<Insn>
    ensures { result ≡ insn_at image.now at }
{
    insn(at, image.word(at)?)
}

// The node of a position, where its frame is ranked and its instruction is known.
fn push_node(
    nodes: &mut Vec<Node>,
    image: &Image,
    pc: Addr,
    rank: Option<u32>,
) -> Result<(), AllocError>
    ensures { IfOk result (λ _. AddsNode image.now rank pc nodes.old.items nodes.new.items) }
{
    let Some(context) = rank else {
        return Ok(());
    };
    let Some(insn) = insn_at(image, pc) else {
        return Ok(());
    };
    nodes.push(Node { context, pc, insn })?;
    Ok(())
}

/// The positions in order as nodes.
pub fn nodes(
    alloc: Global,
    image: &Image,
    places: &[Place],
    order: &[u32],
    ranks: &[Option<u32>],
) -> Result<Vec<Node>, AllocError>
    requires inside { Inside (length places.now) order.now }
    requires ranks { AreWithin (length ranks.now) places.now }
    ensures { IfOk result (λ v. v.items ≡ flat_map (node_of image.now places.now ranks.now) order.now) }
{
    let mut nodes = Vec::with_capacity(alloc, order.len())?;
    for number in order {
        let place = places[*number as usize];
        push_node(&mut nodes, image, place.pc, ranks[place.frame as usize])?;
    }
    Ok(nodes)
}

// A step with its new numbers, where it leads to the exit or to a node.
fn push_step(
    steps: &mut Vec<Step>,
    source: u32,
    leap: Leap,
    numbers: &[Option<u32>],
) -> Result<(), AllocError>
    requires { IfSome leap.target (λ t. t < length numbers.now) }
    ensures { IfOk result (λ _. AddsStep numbers.now source leap steps.old.items steps.new.items) }
{
    let Some(target) = leap.target else {
        steps.push(Step {
            source,
            target: None,
            taken: leap.taken,
        })?;
        return Ok(());
    };
    let Some(target) = numbers[target as usize] else {
        return Ok(());
    };
    steps.push(Step {
        source,
        target: Some(target),
        taken: leap.taken,
    })?;
    Ok(())
}

// The steps of one node.
fn push_steps(
    steps: &mut Vec<Step>,
    source: u32,
    leaps: &[Leap],
    numbers: &[Option<u32>],
) -> Result<(), AllocError>
    requires { AreTargets (length numbers.now) leaps.now }
    ensures { IfOk result (λ _. AddsSteps numbers.now source leaps.now steps.old.items steps.new.items) }
{
    for leap in leaps {
        push_step(steps, source, *leap, numbers)?;
    }
    Ok(())
}

/// The steps of the nodes in order, with their new numbers.
pub fn steps(
    alloc: Global,
    leaps: &Rows,
    order: &[u32],
    numbers: &[Option<u32>],
) -> Result<Vec<Step>, AllocError>
    requires few { length order.now ≤ 100000 }
    requires inside { Inside (length leaps.now) order.now }
    requires targets { (own : List Leap) → Has leaps.now own → AreTargets (length numbers.now) own }
    ensures { IfOk result (λ v. v.items ≡ steps_from leaps.now numbers.now 0 order.now) }
{
    let mut steps = Vec::with_capacity(alloc, order.len())?;
    for source in 0..order.len() {
        let own = leaps.row(order[source] as usize);
        push_steps(&mut steps, source as u32, own, numbers)?;
    }
    Ok(steps)
}
