ghost use Rattle.std.specs.Prelude.{◌≡◌, IfOk, length};
ghost use Rattle.wc_mustmay.specs.Inner.OneSet.{AreOwnFlags, IsSetReady, KeepsOthers};

use crate::names::{named, names_of};
use crate::writing::write_flags;
use std::alloc::{AllocError, Global};
use wc_ages::{May, Must};
use wc_fix::solve;
use wc_model::Graph;

/// Which lines: those that are in every state, or those that may be in one.
#[derive(Clone, Copy)]
pub enum Analysis {
    Must,
    May,
}

// The lines that are in every state.
fn flag_must(
    alloc: Global,
    graph: &Graph,
    ways: u8,
    own: &[Option<u32>],
    flags: &mut Vec<bool>,
) -> Result<(), AllocError>
    requires set { IsSetReady ways graph.now own.now flags.old.items }
    ensures count { length flags.new.items ≡ length flags.old.items }
    ensures flags { IfOk result (λ _. AreOwnFlags Analysis.Must ways graph.now own.now flags.new.items) }
    ensures others { KeepsOthers own.now flags.old.items flags.new.items }
{
    let states = solve(alloc, graph, own, Must::new(ways))?;
    write_flags(&states, own, flags);
    Ok(())
}

// The lines that may be in a state; in it they go by their names.
fn flag_may(
    alloc: Global,
    graph: &Graph,
    ways: u8,
    own: &[Option<u32>],
    flags: &mut Vec<bool>,
) -> Result<(), AllocError>
    requires set { IsSetReady ways graph.now own.now flags.old.items }
    ensures count { length flags.new.items ≡ length flags.old.items }
    ensures flags { IfOk result (λ _. AreOwnFlags Analysis.May ways graph.now own.now flags.new.items) }
    ensures others { KeepsOthers own.now flags.old.items flags.new.items }
{
    let names = names_of(alloc, own)?;
    let named = named(alloc, own, &names)?;
    let first = May::new(alloc, ways, names.len() as u32)?;
    let states = solve(alloc, graph, &named, first)?;
    write_flags(&states, &named, flags);
    Ok(())
}

/// The flags of the nodes that fetch a line of the set, whose lines are `own`.
pub fn flag_set(
    alloc: Global,
    analysis: Analysis,
    graph: &Graph,
    ways: u8,
    own: &[Option<u32>],
    flags: &mut Vec<bool>,
) -> Result<(), AllocError>
    requires set { IsSetReady ways graph.now own.now flags.old.items }
    ensures count { length flags.new.items ≡ length flags.old.items }
    ensures flags { IfOk result (λ _. AreOwnFlags analysis ways graph.now own.now flags.new.items) }
    ensures others { KeepsOthers own.now flags.old.items flags.new.items }
{
    match analysis {
        Analysis::Must => flag_must(alloc, graph, ways, own, flags),
        Analysis::May => flag_may(alloc, graph, ways, own, flags),
    }
}
