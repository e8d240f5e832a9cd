ghost use Rattle.std.specs.Prelude.{◌≡◌, Some, slice_get};
ghost use Rattle.wc_lru.specs.Inner.Places.{is_walk, leaves};

use wc_model::{Graph, Step};

// Whether the steps at these places lead from the start to the exit.
pub fn is_path(graph: &Graph, path: &[u32]) -> bool
    ensures { result ≡ is_walk graph.now.steps (Some graph.now.start) path.now }
{
    let mut at = Some(graph.start);
    for place in path {
        let Some(step) = step_at(graph, *place) else {
            return false;
        };
        if !leaves(at, step.source) {
            return false;
        }
        at = step.target;
    }
    at.is_none()
}

pub fn step_at(graph: &Graph, place: u32) -> Option<Step>
    ensures { result ≡ slice_get graph.now.steps place }
{
    graph.steps.items().get(place as usize).copied()
}

fn leaves(at: Option<u32>, source: u32) -> bool
    ensures { result ≡ leaves at source }
{
    match at {
        Some(node) => node == source,
        None => false,
    }
}
