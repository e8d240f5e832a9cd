ghost use Rattle.std.specs.Prelude.{◌≡◌, ◌<◌, All, length, IfOk};
ghost use Rattle.std.specs.List.{filter};
ghost use Rattle.wc_model.specs.Flow.Walks.{AreSteps};
ghost use Rattle.wc_nest.specs.Inner.Levels.{class_number, is_looped, is_back, back_way, back_ways, is_inner};
ghost use Rattle.wc_nest.specs.Inner.Ways.{way_ends};

use crate::entering::{is_entry, stays_inside};
use crate::marking::{Mark, class_of};
use crate::ways::Way;
use std::alloc::{AllocError, Global};

// Flags the steps that lead back to a head.
pub fn back_all(marks: &[Mark], entered: &[bool], start: u32, ways: &[Way], back: &mut Vec<bool>)
    requires steps { AreSteps way_ends (length marks.now) ways.now }
    requires flags { length entered.now ≡ length marks.now }
    requires places { All (λ w. w.place < length back.old.items) ways.now }
    ensures { back.new.items ≡ back_ways marks.now entered.now start back.old.items ways.now }
{
    for way in ways {
        back_one(marks, entered, start, way, back);
    }
}

fn back_one(marks: &[Mark], entered: &[bool], start: u32, way: &Way, back: &mut Vec<bool>)
    requires source { way.now.source < length marks.now }
    requires target { way.now.target < length marks.now }
    requires flags { length entered.now ≡ length marks.now }
    requires place { way.now.place < length back.old.items }
    ensures count { length back.new.items ≡ length back.old.items }
    ensures back { back.new.items ≡ back_way marks.now entered.now start back.old.items way.now }
{
    if stays_inside(marks, way) && is_entry(entered, start, way.target) {
        back[way.place] = true;
    }
}

// The ways that are left inside of the classes.
pub fn inner_ways(
    alloc: Global,
    marks: &[Mark],
    entered: &[bool],
    start: u32,
    ways: &[Way],
) -> Result<Vec<Way>, AllocError>
    requires steps { AreSteps way_ends (length marks.now) ways.now }
    requires flags { length entered.now ≡ length marks.now }
    ensures { IfOk result (λ v. v.items ≡ filter (is_inner marks.now entered.now start) ways.now) }
{
    let mut inner = Vec::new(alloc);
    for way in ways {
        if stays_inside(marks, way) && !is_entry(entered, start, way.target) {
            inner.push(*way)?;
        }
    }
    Ok(inner)
}

// The members of the classes that have a way inside.
pub fn loop_members(
    alloc: Global,
    marks: &[Mark],
    looped: &[bool],
    members: &[u32],
) -> Result<Vec<u32>, AllocError>
    requires known { All (λ p. p < length marks.now) members.now }
    requires numbers { All (λ p. class_number marks.now p < length looped.now) members.now }
    ensures { IfOk result (λ v. v.items ≡ filter (is_looped marks.now looped.now) members.now) }
{
    let mut inner = Vec::new(alloc);
    for node in members {
        if looped[class_of(marks, *node)] {
            inner.push(*node)?;
        }
    }
    Ok(inner)
}
