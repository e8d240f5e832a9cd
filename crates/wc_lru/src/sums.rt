ghost use Rattle.std.specs.Prelude.{◌≡◌, ◌<◌, ◌^◌, All, length};
ghost use Rattle.std.specs.Option.{option_map};
ghost use Rattle.wc_model.specs.Cache.Timing.{fetch_cycles, pc_at, timed_step, uncached_cycles};
ghost use Rattle.wc_lru.specs.Filled.{AreCyclesFrom, fetched_from, held_in, step_from, steps_from};
ghost use Rattle.wc_lru.specs.Inner.Places.{timed_at};

use crate::Lru;
use crate::paths::{is_path, step_at};
use wc_cost::base_cycles;
use wc_model::{Cycles, Graph, Step};

/// The cycles of the path whose steps stand at these places of the graph, from what `lru` holds; without an `lru`
/// there is no cache. `None` exactly where the steps don't lead from the graph's start to its exit.
pub fn cycles(graph: &Graph, path: &[u32], cycles: &Cycles, lru: Option<&mut Lru>) -> Option<u128>
    requires { All (λ s. s.source < length graph.now.nodes) graph.now.steps }
    ensures { AreCyclesFrom graph.now path.now cycles.now (option_map (λ l. l.now) lru.entry) result }
{
    if !is_path(graph, path) {
        return None;
    }
    match lru {
        Some(lru) => Some(cached_cycles(graph, path, cycles, lru)),
        None => Some(uncached_cycles(graph, path, cycles)),
    }
}

fn cached_cycles(graph: &Graph, path: &[u32], cycles: &Cycles, lru: &mut Lru) -> u128
    requires { All (λ s. s.source < length graph.now.nodes) graph.now.steps }
    ensures { result ≡ steps_from lru.old cycles.now (timed_at graph.now cycles.now path.now) }
{
    let mut sum = 0;
    for place in path {
        if let Some(step) = step_at(graph, *place) {
            sum += step_cycles(graph, cycles, &step, lru) as u128;
        }
    }
    sum
}

// One step: what it costs beside its fetch, and the fetch.
fn step_cycles(graph: &Graph, cycles: &Cycles, step: &Step, lru: &mut Lru) -> u64
    requires { step.now.source < length graph.now.nodes }
    ensures value { result ≡ step_from lru.old cycles.now (timed_step graph.now cycles.now step.now) }
    ensures small { result < 2 ^ 33 }
    ensures cache { lru.new.cache ≡ lru.old.cache }
    ensures held { held_in lru.new ≡ fetched_from lru.old (pc_at graph.now step.now.source) }
{
    let base = base_cycles(graph, cycles, step);
    let hit = lru.fetch(graph.nodes.items()[step.source as usize].pc);
    base + fetch_cycles(cycles, hit) as u64
}

fn fetch_cycles(cycles: &Cycles, hit: bool) -> u16
    ensures { result ≡ fetch_cycles cycles.now hit }
{
    if hit { cycles.hit } else { cycles.miss }
}

fn uncached_cycles(graph: &Graph, path: &[u32], cycles: &Cycles) -> u128
    requires { All (λ s. s.source < length graph.now.nodes) graph.now.steps }
    ensures { result ≡ uncached_cycles (timed_at graph.now cycles.now path.now) }
{
    let mut sum = 0;
    for place in path {
        if let Some(step) = step_at(graph, *place) {
            sum += base_cycles(graph, cycles, &step) as u128;
        }
    }
    sum
}
