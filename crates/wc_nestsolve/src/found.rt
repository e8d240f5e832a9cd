ghost use Rattle.std.specs.Prelude.{◌≡◌, ◌<◌, ◌≤◌, length};
ghost use Rattle.wc_nestsolve.specs.Inner.Tables.{AreSmall, AreTables, IsBestIn, IsInside, IsLooked, better_of, worth_of};

use wc_model::{Nest, System, SystemStep};

/// The greatest value of a way from a node, and the place of its first step.
#[derive(Clone, Copy, Debug, PartialEq, Eq)]
pub struct Found {
    pub value: u128,
    pub place: u32,
}

// What a way that begins with a step is worth: its cost, the surcharge of the node that it leads to, and what is found
// there. Only a step to the goal ends a way: a back step to the head, or a step to the exit.
fn worth(
    step: SystemStep,
    back: bool,
    goal: Option<u32>,
    extra: &[u128],
    best: &[Option<Found>],
) -> Option<u128>
    requires inside { IsInside extra.now best.now step }
    requires small { AreSmall extra.now best.now }
    ensures { result ≡ worth_of goal back step extra.now best.now }
{
    let cost = step.cost as u128;
    match step.target {
        None => match goal {
            None => Some(cost),
            Some(_) => None,
        },
        Some(target) if back => match goal {
            Some(head) if head == target => Some(cost),
            _ => None,
        },
        Some(target) => match best[target as usize] {
            Some(found) => Some(cost + (extra[target as usize] + found.value)),
            None => None,
        },
    }
}

fn better(found: Option<Found>, worth: Option<u128>, place: u32) -> Option<Found>
    ensures { result ≡ better_of found worth place }
{
    let Some(value) = worth else {
        return found;
    };
    match found {
        Some(
            Found {
                value: old,
                place: at,
            },
        ) if value <= old => Some(Found {
            value: old,
            place: at,
        }),
        _ => Some(Found { value, place }),
    }
}

// The better of what was found and the way that begins with the step at a place.
fn look(
    system: &System,
    nest: &Nest,
    place: usize,
    goal: Option<u32>,
    extra: &[u128],
    best: &[Option<Found>],
    found: Option<Found>,
) -> Option<Found>
    requires lists { AreTables system.now nest.now extra.now best.now }
    requires known { place < length system.now.steps }
    requires small { AreSmall extra.now best.now }
    ensures { IsLooked system.now nest.now goal extra.now best.now place found result }
{
    let step = system.steps.items()[place];
    let back = nest.back.items()[place];
    better(found, worth(step, back, goal, extra, best), place as u32)
}

/// The best of the steps from one place to another.
pub fn best_step(
    system: &System,
    nest: &Nest,
    from: usize,
    to: usize,
    goal: Option<u32>,
    extra: &[u128],
    best: &[Option<Found>],
) -> Option<Found>
    requires lists { AreTables system.now nest.now extra.now best.now }
    requires ordered { from ≤ to }
    requires known { to ≤ length system.now.steps }
    requires small { AreSmall extra.now best.now }
    ensures { IsBestIn system.now nest.now goal extra.now best.now from to result }
{
    let mut found = None;
    for place in from..to {
        found = look(system, nest, place, goal, extra, best, found);
    }
    found
}
