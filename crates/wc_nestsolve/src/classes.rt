ghost use Rattle.std.specs.Prelude.{◌≡◌, ◌<◌, [], IfOk, length, replicate};
ghost use Rattle.wc_nestsolve.specs.Inner.Orders.{IsDownOrder};
ghost use Rattle.wc_nestsolve.specs.Inner.Passes.{AreClasses, JoinsLoops, with_node};
ghost use Rattle.wc_nestsolve.specs.Inner.Solvable.{IsSolvable};

use std::alloc::{AllocError, Global};
use wc_model::{Nest, System, Table};

fn count_one(sizes: &mut Vec<usize>, place: usize, more: usize)
    requires { place < length sizes.old.items }
    ensures { length sizes.new.items ≡ length sizes.old.items }
{
    sizes[place] = sizes[place].wrapping_add(more);
}

// How many nodes lie in each loop and in none inside it.
fn own_sizes(alloc: Global, system: &System, nest: &Nest) -> Result<Vec<usize>, AllocError>
    requires solvable { IsSolvable nest.now system.now }
    ensures { IfOk result (λ v. length v.items ≡ length nest.now.heads) }
{
    let mut sizes = vec![in alloc; 0usize; nest.heads.items().len()]?;
    for inside in nest.inside.items() {
        if let Some(place) = *inside {
            count_one(&mut sizes, place as usize, 1);
        }
    }
    Ok(sizes)
}

// How many nodes lie in each loop, so that no list of them has to grow.
fn sizes(alloc: Global, system: &System, nest: &Nest) -> Result<Vec<usize>, AllocError>
    requires solvable { IsSolvable nest.now system.now }
    ensures { IfOk result (λ v. length v.items ≡ length nest.now.heads) }
{
    let mut sizes = own_sizes(alloc, system, nest)?;
    let mut left = nest.heads.items().len();
    while 0 < left {
        left -= 1;
        if let Some(parent) = nest.heads.items()[left].parent {
            let size = sizes[left];
            count_one(&mut sizes, parent as usize, size);
        }
    }
    Ok(sizes)
}

fn no_classes(alloc: Global, sizes: &[usize]) -> Result<Vec<Table<u32>>, AllocError>
    ensures { IfOk result (λ v. v.items ≡ replicate (length sizes.now) []) }
{
    let mut classes = Vec::with_capacity(alloc, sizes.len())?;
    for size in sizes {
        classes.push(Table::new(Vec::with_capacity(alloc, *size)?))?;
    }
    Ok(classes)
}

fn push_to(classes: &mut Vec<Table<u32>>, place: usize, node: u32) -> Result<(), AllocError>
    requires { place < length classes.old.items }
    ensures { IfOk result (λ _. classes.new.items ≡ with_node classes.old.items place node) }
{
    classes[place].push(node)?;
    Ok(())
}

// A node joins the classes of the loops round it.
fn join(
    system: &System,
    nest: &Nest,
    node: u32,
    classes: &mut Vec<Table<u32>>,
) -> Result<(), AllocError>
    requires solvable { IsSolvable nest.now system.now }
    requires known { node < system.now.nodes }
    requires counted { length classes.old.items ≡ length nest.now.heads }
    ensures { IfOk result (λ _. JoinsLoops nest.now node classes.old.items classes.new.items) }
{
    let mut at = nest.inside.items()[node as usize];
    while let Some(place) = at {
        push_to(classes, place as usize, node)?;
        at = nest.heads.items()[place as usize].parent;
    }
    Ok(())
}

/// Per loop, the nodes of an order that lie in its class.
pub fn classes(
    alloc: Global,
    system: &System,
    nest: &Nest,
    order: &[u32],
) -> Result<Vec<Table<u32>>, AllocError>
    requires solvable { IsSolvable nest.now system.now }
    requires order { IsDownOrder system.now nest.now order.now }
    ensures { IfOk result (λ v. AreClasses nest.now order.now v.items) }
{
    let sizes = sizes(alloc, system, nest)?;
    let mut classes = no_classes(alloc, sizes.as_slice())?;
    for node in order {
        join(system, nest, *node, &mut classes)?;
    }
    Ok(classes)
}
