ghost use Rattle.std.specs.Prelude.{◌≡◌, ◌<◌, All, false, length, replicate, IfOk};
ghost use Rattle.wc_model.specs.Flow.Walks.{AreSteps};
ghost use Rattle.wc_nest.specs.Inner.Levels.{class_number, stays, enter_way, enter_ways, is_entered, loop_way, loop_ways};
ghost use Rattle.wc_nest.specs.Inner.Ways.{way_ends};

use crate::marking::{Mark, class_of, new_list};
use crate::ways::Way;
use std::alloc::{AllocError, Global};

// Whether a way stays inside of a class.
pub fn stays_inside(marks: &[Mark], way: &Way) -> bool
    requires source { way.now.source < length marks.now }
    requires target { way.now.target < length marks.now }
    ensures { result ≡ stays marks.now way.now }
{
    class_of(marks, way.source) == class_of(marks, way.target)
}

pub fn is_entry(entered: &[bool], start: u32, node: u32) -> bool
    requires { node < length entered.now }
    ensures { result ≡ is_entered entered.now start node }
{
    node == start || entered[node as usize]
}

// Flags the nodes to which a way leads from another class.
pub fn enter_all(marks: &[Mark], ways: &[Way], entered: &mut Vec<bool>)
    requires steps { AreSteps way_ends (length marks.now) ways.now }
    requires flags { length entered.old.items ≡ length marks.now }
    ensures { entered.new.items ≡ enter_ways marks.now entered.old.items ways.now }
{
    for way in ways {
        enter_one(marks, way, entered);
    }
}

fn enter_one(marks: &[Mark], way: &Way, entered: &mut Vec<bool>)
    requires source { way.now.source < length marks.now }
    requires target { way.now.target < length marks.now }
    requires flags { length entered.old.items ≡ length marks.now }
    ensures flags { length entered.new.items ≡ length entered.old.items }
    ensures entered { entered.new.items ≡ enter_way marks.now entered.old.items way.now }
{
    if !stays_inside(marks, way) {
        entered[way.target as usize] = true;
    }
}

// Per class whether it has a way inside.
pub fn loops(
    alloc: Global,
    marks: &[Mark],
    ways: &[Way],
    count: usize,
) -> Result<Vec<bool>, AllocError>
    requires steps { AreSteps way_ends (length marks.now) ways.now }
    requires numbers { All (λ w. class_number marks.now w.source < count) ways.now }
    ensures { IfOk result (λ v. v.items ≡ loop_ways marks.now (replicate count false) ways.now) }
{
    let mut looped = new_list(alloc, count, false)?;
    for way in ways {
        loop_one(marks, way, &mut looped);
    }
    Ok(looped)
}

fn loop_one(marks: &[Mark], way: &Way, looped: &mut Vec<bool>)
    requires source { way.now.source < length marks.now }
    requires target { way.now.target < length marks.now }
    requires number { class_number marks.now way.now.source < length looped.old.items }
    ensures count { length looped.new.items ≡ length looped.old.items }
    ensures looped { looped.new.items ≡ loop_way marks.now looped.old.items way.now }
{
    if stays_inside(marks, way) {
        looped[class_of(marks, way.source)] = true;
    }
}
