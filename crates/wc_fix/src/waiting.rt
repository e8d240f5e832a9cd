ghost use Rattle.std.specs.Prelude.{◌≡◌, ◌<◌, IfOk, false, length, replicate, slice_set, true};
ghost use Rattle.wc_fix.specs.Inner.Queues.{IsNext};

use std::alloc::{AllocError, Global};
use std::cmp::Reverse;
use std::collections::BinaryHeap;
use std::marker::Model;

// For each node whether it waits; those that do stand in a queue, the least one in front.
#[derive(Drop)]
pub struct Waiting {
    flags: Vec<bool>,
    queue: BinaryHeap<Reverse<u32>>,
}

impl Model for Waiting {
    ghost use Rattle.std.specs.Prelude.{Bool, List, map};
    ghost use Rattle.std.specs.BinaryHeap.{heap_items};
    ghost use Rattle.wc_fix.specs.Inner.Queues.{IsQueue};

    ghost Value = { List Bool };

    ghost view = { λ w. w.flags.items };

    ghost invariant = { λ w. IsQueue w.flags.items (map (λ x. x.0) (heap_items w.queue)) };
}

impl Waiting {
    /// No node waits.
    pub fn new(alloc: Global, nodes: u32) -> Result<Self, AllocError>
        ensures { IfOk result (λ w. w ≡ replicate nodes false) }
    {
        Ok(Waiting {
            flags: vec![in alloc; false; nodes as usize]?,
            queue: BinaryHeap::new(alloc),
        })
    }

    /// A node comes, if it doesn't wait already.
    pub fn add(&mut self, node: u32) -> Result<(), AllocError>
        requires { node < length self.old }
        ensures { IfOk result (λ _. self.new ≡ slice_set self.old node true) }
    {
        if self.flags[node as usize] {
            return Ok(());
        }
        self.queue.push(Reverse(node))?;
        self.flags[node as usize] = true;
        Ok(())
    }

    /// The least node that waits, if any, which waits no longer.
    pub fn next(&mut self) -> Option<u32>
        ensures { IsNext self.old self.new result }
    {
        while let Some(least) = self.queue.pop() {
            let node = least.0;
            if self.flags[node as usize] {
                self.flags[node as usize] = false;
                return Some(node);
            }
        }
        None
    }
}
