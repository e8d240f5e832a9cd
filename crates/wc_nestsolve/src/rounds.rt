ghost use Rattle.std.specs.Prelude.{◌+◌, ◌<◌, length};
ghost use Rattle.wc_nestsolve.specs.Inner.Ways.{AreWays, FindsRounds};

use crate::found::Found;
use crate::tables::{clear, fill, value_at};
use crate::ways::{Ways, class_at, loop_at};
use wc_model::{Nest, System};

// The round of one loop, and the surcharge of its head.
fn round(
    system: &System,
    nest: &Nest,
    ways: &Ways,
    place: usize,
    extra: &mut Vec<u128>,
    v: &mut Vec<u128>,
    best: &mut Vec<Option<Found>>,
)
    requires ways { AreWays system.now nest.now ways.now }
    requires place { place < length system.now.loops }
    requires pass { FindsRounds system.now nest.now ways.now (place + 1) extra.old.items v.old.items best.old.items }
    ensures { FindsRounds system.now nest.now ways.now place extra.new.items v.new.items best.new.items }
{
    let own = loop_at(system, place);
    let class = class_at(ways, place);
    let starts = ways.starts.as_slice();
    let goal = Some(own.head);
    fill(system, nest, starts, goal, class, extra.as_slice(), best);
    let round = value_at(best.as_slice(), own.head);
    v[place] = round;
    extra[own.head as usize] = own.bound as u128 * round;
    clear(class, best);
}

/// The rounds of all loops, from the innermost outwards, and the surcharges of their heads.
pub fn rounds(
    system: &System,
    nest: &Nest,
    ways: &Ways,
    extra: &mut Vec<u128>,
    v: &mut Vec<u128>,
    best: &mut Vec<Option<Found>>,
)
    requires ways { AreWays system.now nest.now ways.now }
    requires pass { FindsRounds system.now nest.now ways.now (length system.now.loops) extra.old.items v.old.items best.old.items }
    ensures { FindsRounds system.now nest.now ways.now 0 extra.new.items v.new.items best.new.items }
{
    let mut left = system.loops.items().len();
    while 0 < left {
        left -= 1;
        round(system, nest, ways, left, extra, v, best);
    }
}
