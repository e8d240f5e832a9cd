ghost use Rattle.std.specs.Prelude.{◌≡◌, ◌<◌, ◌∷◌, ◌++◌, [], IfOk, Some, if◌then◌else◌, length};
ghost use Rattle.std.specs.Option.{option_map};
ghost use Rattle.wc_model.specs.Cache.Ages.{AreMayFlags, AreMustFlags, accesses};
ghost use Rattle.wc_model.specs.Cache.Lines.{line_map};
ghost use Rattle.wc_model.specs.Program.Graphs.{IsGraph};
ghost use Rattle.wc_mustmay.specs.Inner.OneSet.{AreFlagsBy, HasSets, IsMet};

use crate::one_set::{Analysis, flag_set};
use crate::own_lines::{all_lines, own_lines};
use std::alloc::{AllocError, Global};
use std::thread::Threads;
use wc_model::{Cache, Flags, Graph, LineMap, StartState, Table};

/// Per node whether its line is in every state that reaches it. Without a cache there are no flags.
pub fn must<R: Threads + Sync>(
    rt: &R,
    alloc: Global,
    graph: &Graph,
    map: &LineMap,
    cache: Option<&Cache>,
) -> Result<Flags, AllocError>
    requires graph { IsGraph graph.now }
    requires map { map.now ≡ line_map graph.now (option_map (λ c. c.now) cache) }
    ensures { IfOk result (AreMustFlags graph.now (option_map (λ c. c.now) cache.entry)) }
{
    let yes = match cache {
        Some(cache) => flag_sets(rt, alloc, Analysis::Must, graph, map, cache)?,
        None => Vec::new(alloc),
    };
    Ok(Flags {
        yes: Table::new(yes),
    })
}

/// Per node whether its line may be in a state that reaches it; from any state of the cache, each may.
/// Without a cache there are no flags.
pub fn may<R: Threads + Sync>(
    rt: &R,
    alloc: Global,
    graph: &Graph,
    map: &LineMap,
    cache: Option<&Cache>,
) -> Result<Flags, AllocError>
    requires graph { IsGraph graph.now }
    requires map { map.now ≡ line_map graph.now (option_map (λ c. c.now) cache) }
    ensures { IfOk result (AreMayFlags graph.now (option_map (λ c. c.now) cache.entry)) }
{
    let yes = match cache {
        Some(cache) => may_from(rt, alloc, graph, map, cache)?,
        None => Vec::new(alloc),
    };
    Ok(Flags {
        yes: Table::new(yes),
    })
}

fn may_from<R: Threads + Sync>(
    rt: &R,
    alloc: Global,
    graph: &Graph,
    map: &LineMap,
    cache: &Cache,
) -> Result<Vec<bool>, AllocError>
    requires graph { IsGraph graph.now }
    requires map { map.now ≡ line_map graph.now (Some cache.now) }
    ensures { IfOk result (λ v. AreMayFlags graph.now (Some cache.now) (record { yes = v.items })) }
{
    match cache.start {
        StartState::Empty => flag_sets(rt, alloc, Analysis::May, graph, map, cache),
        StartState::Any => vec![in alloc; true; graph.nodes.items().len()],
    }
}

// The flags by all sets, one after the other.
fn flag_sets<R: Threads + Sync>(
    _rt: &R,
    alloc: Global,
    analysis: Analysis,
    graph: &Graph,
    map: &LineMap,
    cache: &Cache,
) -> Result<Vec<bool>, AllocError>
    requires graph { IsGraph graph.now }
    requires map { map.now ≡ line_map graph.now (Some cache.now) }
    ensures { IfOk result (λ v. AreFlagsBy analysis graph.now cache.now v.items) }
{
    let access = all_lines(alloc, map.line.items())?;
    let sets = cache.sets as u32;
    let met = met_sets(alloc, &access, sets)?;
    let mut flags = vec![in alloc; false; access.len()]?;
    for set in &met {
        let own = own_lines(alloc, &access, sets, *set)?;
        flag_set(alloc, analysis, graph, cache.ways, &own, &mut flags)?;
    }
    Ok(flags)
}

// The sets that occur, by rising number.
fn met_sets(alloc: Global, access: &[Option<u32>], sets: u32) -> Result<Vec<u32>, AllocError>
    requires { 0 < sets }
    ensures { IfOk result (λ v. HasSets sets access.now v.items) }
{
    let mut seen = vec![in alloc; false; sets as usize]?;
    for line in access {
        meet(&mut seen, *line);
    }
    let mut met = Vec::new(alloc);
    for set in 0..sets {
        add_set(&mut met, set, seen[set as usize])?;
    }
    Ok(met)
}

fn add_set(met: &mut Vec<u32>, set: u32, seen: bool) -> Result<(), AllocError>
    ensures { IfOk result (λ _. met.new.items ≡ met.old.items ++ (if seen then set ∷ [] else [])) }
{
    if seen {
        met.push(set)?;
    }
    Ok(())
}

fn meet(seen: &mut Vec<bool>, line: Option<u32>)
    requires { 0 < length seen.old.items }
    ensures count { length seen.new.items ≡ length seen.old.items }
    ensures met { IsMet line seen.old.items seen.new.items }
{
    if let Some(line) = line {
        let set = line as usize % seen.len();
        seen[set] = true;
    }
}
