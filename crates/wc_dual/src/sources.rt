ghost use Rattle.std.specs.Prelude.{◌≡◌, ◌<◌, ◌≤◌, ◌==◌, ◌↔◌, ◌+ℤ◌, IsTrue, Some, length, slice_get};
ghost use Rattle.wc_base.specs.Sums.{chosen};
ghost use Rattle.wc_model.specs.declared.flow_system.SystemStep.{SystemStep};
ghost use Rattle.wc_model.specs.Flow.Places.{number_at};
ghost use Rattle.wc_dual.specs.Inner.Clauses.{AddsVisit, At};
ghost use Rattle.wc_dual.specs.Inner.Parts.{IsExact};
ghost use Rattle.wc_dual.specs.Inner.Sources.{AreBySource, HasAll, IsFrom, IsVisits};

use crate::numbers::plus;
use wc_model::SystemStep;

/// Places from `first` on, up to `end`.
#[derive(Clone, Copy)]
pub struct Places {
    pub first: usize,
    pub end: usize,
}

/// Whether steps stand in the order of their sources, as those of a graph do.
pub fn are_by_source(steps: &[SystemStep]) -> bool
    ensures { IsTrue result ↔ AreBySource steps.now }
{
    for place in 1..steps.len() {
        if steps[place].source < steps[place - 1].source {
            return false;
        }
    }
    true
}

/// Where the steps of a node stand; in no order that may be anywhere.
pub fn steps_of(steps: &[SystemStep], sorted: bool, node: u32) -> Places
    requires { IsTrue sorted → AreBySource steps.now }
    ensures inside { result.end ≤ length steps.now }
    ensures all { HasAll steps.now node result }
{
    if !sorted {
        return Places {
            first: 0,
            end: steps.len(),
        };
    }
    Places {
        first: first_from(steps, node as u64),
        end: first_from(steps, node as u64 + 1),
    }
}

fn first_from(steps: &[SystemStep], node: u64) -> usize
    requires { AreBySource steps.now }
    ensures inside { result ≤ length steps.now }
    ensures first { IsFrom steps.now node result }
{
    steps.partition_point(|step| (step.source as u64) < node)
}

/// The visits of a node: the sum of the counts of its steps.
pub fn visits_of(steps: &[SystemStep], sorted: bool, node: u32, x: &[i128]) -> Option<i128>
    requires sorted { IsTrue sorted → AreBySource steps.now }
    requires counted { length x.now ≡ length steps.now }
    ensures { IsVisits steps.now (number_at x.now) node result }
{
    let places = steps_of(steps, sorted, node);
    let mut sum = 0i128;
    for place in places.first..places.end {
        let Some(next) = visit_step(steps, place, node, x, &sum) else {
            return None;
        };
        sum = next;
    }
    Some(sum)
}

fn visit_step(steps: &[SystemStep], place: usize, node: u32, x: &[i128], sum: &i128) -> Option<i128>
    requires known { place < length steps.now }
    requires counted { length x.now ≡ length steps.now }
    ensures { At steps.now place (AddsVisit x.now place node sum.now result) }
{
    add_visit(steps[place], node, &x[place], sum)
}

fn add_visit(step: SystemStep, node: u32, count: &i128, sum: &i128) -> Option<i128>
    ensures { IsExact (sum.now +ℤ chosen (step.source == node) count.now) result }
{
    if step.source == node {
        plus(sum, count)
    } else {
        Some(*sum)
    }
}
