ghost use Rattle.std.specs.Prelude.{◌≡◌, ◌<◌, IfOk, Some, length, slice_get};
ghost use Rattle.std.specs.BTreeMap.{get};
ghost use Rattle.std.specs.Ordering.{nat_cmp};
ghost use Rattle.wc_model.specs.Program.Positions.{Position};
ghost use Rattle.wc_bounds.specs.Inner.Best.{IsAt, ArePlaced};
ghost use Rattle.wc_bounds.specs.Inner.Stated.{loop_at, IsAdded, IsPut, IsStated, IsBestFrom, IsBestWith};

use crate::best::{Best, with_fact};
use std::alloc::{AllocError, Global};
use std::collections::BTreeMap;
use wc_base::Addr;
use wc_model::{Context, Fact, Node};

// The facts that state loop bounds: the last one of each address, and per fact the one before of the same address.
#[derive(Drop)]
pub struct Stated {
    pub last: BTreeMap<Addr, usize>,
    pub before: Vec<Option<usize>>,
}

pub fn stated_bounds(alloc: Global, facts: &[(u64, Fact)]) -> Result<Stated, AllocError>
    ensures { IfOk result (IsStated facts.now (length facts.now)) }
{
    let mut stated = Stated {
        last: BTreeMap::new(alloc),
        before: Vec::with_capacity(alloc, facts.len())?,
    };
    for index in 0..facts.len() {
        stated.add(facts, index)?;
    }
    Ok(stated)
}

// The address of a fact that states a bound.
fn address(fact: &Fact) -> Option<Addr>
    ensures { result ≡ loop_at fact.now }
{
    match fact {
        Fact::Loop {
            at,
            bound: Some(_),
            ..
        } => Some(*at),
        _ => None,
    }
}

// The best with the fact at a place.
fn with_place(
    best: Option<Best>,
    facts: &[(u64, Fact)],
    index: usize,
    contexts: &[Context],
    node: &Node,
) -> Option<Best>
    requires inside { index < length facts.now }
    requires known { node.now.context < length contexts.now }
    requires parents { ArePlaced contexts.now }
    ensures { (p : Position) → IsAt contexts.now node.now p → IsBestWith facts.now p index best result }
{
    with_fact(best, &facts[index].1, contexts, node)
}

impl Stated {
    fn add(&mut self, facts: &[(u64, Fact)], index: usize) -> Result<(), AllocError>
        requires { index < length facts.now }
        ensures { IfOk result (λ _. IsAdded facts.now index self.old self.new) }
    {
        match address(&facts[index].1) {
            None => self.before.push(None)?,
            Some(at) => self.put(at, index)?,
        }
        Ok(())
    }

    fn put(&mut self, at: Addr, index: usize) -> Result<(), AllocError>
        ensures { IfOk result (λ _. IsPut at index self.old self.new) }
    {
        match self.last.insert(at, index) {
            Ok(before) => self.before.push(before)?,
            Err(_) => return Err(AllocError),
        }
        Ok(())
    }

    // The best of the bounds that are stated for a node.
    pub fn best(&self, facts: &[(u64, Fact)], contexts: &[Context], node: &Node) -> Option<Best>
        requires known { node.now.context < length contexts.now }
        requires parents { ArePlaced contexts.now }
        requires stated { IsStated facts.now (length facts.now) self.now }
        ensures { (p : Position) → IsAt contexts.now node.now p → IsBestFrom facts.now p 0 result }
    {
        let mut best = None;
        let mut place = self.last_of(node.pc);
        while let Some(index) = place {
            let more = with_place(best, facts, index, contexts, node);
            let earlier = self.before_of(index);
            best = more;
            place = earlier;
        }
        best
    }

    fn last_of(&self, at: Addr) -> Option<usize>
        ensures { result ≡ get nat_cmp self.now.last at }
    {
        self.last.get(&at).copied()
    }

    fn before_of(&self, index: usize) -> Option<usize>
        requires { index < length self.now.before.items }
        ensures { slice_get self.now.before.items index ≡ Some result }
    {
        self.before[index]
    }
}
