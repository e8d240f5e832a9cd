ghost use Rattle.std.specs.Prelude.{◌≡◌, ◌+◌, ◌-◌, ◌<◌, ◌^◌, ◌++◌, ◌∷◌, [], IfOk, Some, slice_get, slice_index, slice_set, length, replicate, IsSome};
ghost use Rattle.wc_model.specs.Inner.Searches.{IsSearch, IsNextStep, RoundGives, followed};
ghost use Rattle.wc_model.specs.Flow.Walks.{AreSteps, Joins, IsSearched};

use crate::walks::{Arrow, starts};
use std::alloc::{AllocError, Global};

/// The nodes that the start reaches: one of them reaches itself, or they have an order in which every step
/// leads to an earlier node.
#[derive(Debug, Drop)]
pub enum Order {
    Cycle(u32),
    Nodes(Vec<u32>),
}

#[derive(Clone, Copy)]
enum Mark {
    New,
    Open,
    Done,
}

// A depth-first search: the nodes on the path from the start, the nodes that are done, and per node the place
// of the first step that isn't followed yet.
#[derive(Drop)]
struct Search {
    start: u32,
    marks: Vec<Mark>,
    next: Vec<usize>,
    path: Vec<u32>,
    done: Vec<u32>,
}

impl Search {
    fn new<S: Arrow>(alloc: Global, nodes: u32, steps: &[S], start: u32) -> Result<Self, AllocError>
        requires steps { AreSteps S.ends nodes steps.now }
        requires start { start < nodes }
        ensures search { IfOk result (IsSearch S.ends steps.now) }
        ensures start { IfOk result (λ s. s.start ≡ start) }
        ensures count { IfOk result (λ s. length s.marks.items ≡ nodes) }
    {
        let mut search = Search {
            start,
            marks: new_marks(alloc, nodes)?,
            next: starts(alloc, nodes, steps)?,
            path: Vec::new(alloc),
            done: Vec::new(alloc),
        };
        search.enter(start)?;
        Ok(search)
    }

    // The search goes on to a new node.
    fn enter(&mut self, node: u32) -> Result<(), AllocError>
        requires { node < length self.old.marks.items }
        ensures start { self.new.start ≡ self.old.start }
        ensures marks { self.new.marks.items ≡ slice_set self.old.marks.items node Mark.Open }
        ensures next { self.new.next.items ≡ self.old.next.items }
        ensures path { IfOk result (λ _. self.new.path.items ≡ self.old.path.items ++ node ∷ []) }
        ensures done { self.new.done.items ≡ self.old.done.items }
    {
        self.marks[node as usize] = Mark::Open;
        self.path.push(node)?;
        Ok(())
    }

    // All steps of the last open node are followed.
    fn leave(&mut self, node: u32) -> Result<(), AllocError>
        requires known { node < length self.old.marks.items }
        requires last { slice_get self.old.path.items (length self.old.path.items - 1) ≡ Some node }
        ensures start { self.new.start ≡ self.old.start }
        ensures marks { self.new.marks.items ≡ slice_set self.old.marks.items node Mark.Done }
        ensures next { self.new.next.items ≡ self.old.next.items }
        ensures path { self.old.path.items ≡ self.new.path.items ++ node ∷ [] }
        ensures done { IfOk result (λ _. self.new.done.items ≡ self.old.done.items ++ node ∷ []) }
    {
        self.marks[node as usize] = Mark::Done;
        self.path.pop();
        self.done.push(node)?;
        Ok(())
    }

    // The next step of a node is followed.
    fn follow(&mut self, node: u32)
        requires known { node < length self.old.next.items }
        requires fits { slice_index self.old.next.items node + 1 < 2 ^ 64 }
        ensures start { self.new.start ≡ self.old.start }
        ensures marks { self.new.marks.items ≡ self.old.marks.items }
        ensures next { self.new.next.items ≡ followed self.old.next.items node }
        ensures path { self.new.path.items ≡ self.old.path.items }
        ensures done { self.new.done.items ≡ self.old.done.items }
    {
        self.next[node as usize] += 1;
    }

    // The first step of a node that isn't followed yet.
    fn next_step<S: Arrow>(&self, steps: &[S], node: u32) -> Option<S>
        requires { node < length self.now.next.items }
        ensures next { IsNextStep S.ends steps.now node (slice_index self.now.next.items node) result }
        ensures short { IsSome result → slice_index self.now.next.items node + 1 < 2 ^ 64 }
    {
        match steps.get(self.next[node as usize]) {
            Some(step) if step.source() == node => Some(*step),
            _ => None,
        }
    }

    // One round at the last open node. A node that reaches itself is the result.
    fn advance<S: Arrow>(&mut self, steps: &[S], node: u32) -> Result<Option<u32>, AllocError>
        requires steps { AreSteps S.ends (length self.old.marks.items) steps.now }
        requires search { IsSearch S.ends steps.now self.old }
        requires last { slice_get self.old.path.items (length self.old.path.items - 1) ≡ Some node }
        ensures count { length self.new.marks.items ≡ length self.old.marks.items }
        ensures start { self.new.start ≡ self.old.start }
        ensures round { IfOk result (RoundGives S.ends steps.now self.old self.new) }
    {
        match self.next_step(steps, node) {
            None => self.leave(node)?,
            Some(step) => match step.target() {
                None => self.follow(node),
                Some(target) => match self.marks[target as usize] {
                    Mark::New => self.enter(target)?,
                    Mark::Open => return Ok(Some(target)),
                    Mark::Done => self.follow(node),
                },
            },
        }
        Ok(None)
    }
}

fn new_marks(alloc: Global, nodes: u32) -> Result<Vec<Mark>, AllocError>
    ensures { IfOk result (λ v. v.items ≡ replicate nodes Mark.New) }
{
    let mut marks = Vec::with_capacity(alloc, nodes as usize)?;
    for _node in 0..nodes {
        marks.push(Mark::New)?;
    }
    Ok(marks)
}

/// Searches the nodes from `start` on, depth first.
pub fn order_nodes<S: Arrow>(
    alloc: Global,
    nodes: u32,
    steps: &[S],
    start: u32,
) -> Result<Order, AllocError>
    requires steps { AreSteps S.ends nodes steps.now }
    requires start { start < nodes }
    ensures { IfOk result (IsSearched (Joins S.ends steps.now) start) }
{
    let mut search = Search::new(alloc, nodes, steps, start)?;
    while let Some(node) = search.path.last().copied() {
        if let Some(cycle) = search.advance(steps, node)? {
            return Ok(Order::Cycle(cycle));
        }
    }
    Ok(Order::Nodes(search.done))
}
