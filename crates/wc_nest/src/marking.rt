ghost use Rattle.std.specs.Prelude.{◌≡◌, ◌<◌, All, length, replicate, IfOk};
ghost use Rattle.wc_nest.specs.Inner.Levels.{class_number};
ghost use Rattle.wc_nest.specs.Inner.Marking.{set_all};

use std::alloc::{AllocError, Global};

// What the search knows of a node: nothing yet, its place on the stack, or the number of its class.
#[derive(Clone, Copy)]
pub enum Mark {
    New,
    Open(usize),
    Done(usize),
}

pub fn set_all<T: Copy>(items: &mut Vec<T>, places: &[u32], value: T)
    requires { All (λ p. p < length items.old.items) places.now }
    ensures { items.new.items ≡ set_all items.old.items places.now value }
{
    for place in places {
        items[*place as usize] = value;
    }
}

pub fn new_list<T: Copy>(alloc: Global, count: usize, value: T) -> Result<Vec<T>, AllocError>
    ensures { IfOk result (λ v. v.items ≡ replicate count value) }
{
    let mut items = Vec::with_capacity(alloc, count)?;
    for _item in 0..count {
        items.push(value)?;
    }
    Ok(items)
}

// The number of a node's class.
pub fn class_of(marks: &[Mark], node: u32) -> usize
    requires { node < length marks.now }
    ensures { result ≡ class_number marks.now node }
{
    match marks[node as usize] {
        Mark::Done(class) => class,
        _ => 0,
    }
}
