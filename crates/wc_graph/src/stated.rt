ghost use Rattle.std.specs.Prelude.{◌≡◌, ◌<◌, ◌^◌, All, IfOk, IsTrue, map};
ghost use Rattle.std.specs.Ordering.{nat_cmp};
ghost use Rattle.wc_graph.specs.Inner.Stated.{AreStated, Adds, key_of, targets_in, with_all, has_number};

use std::alloc::{AllocError, Global};
use std::collections::BTreeSet;
use wc_base::Addr;
use wc_model::{Fact, Facts};

/// What the facts state of control flow, found by address: the targets of indirect jumps and calls, each with
/// the address of the jump or call above it, and the functions that don't return.
#[derive(Drop)]
pub struct Stated {
    pub jumps: BTreeSet<u64>,
    pub calls: BTreeSet<u64>,
    pub noreturns: BTreeSet<u32>,
}

const ABOVE: u64 = 0x1_0000_0000;

// The targets of an address.
fn put_all(keys: &mut BTreeSet<u64>, at: Addr, to: &[Addr]) -> Result<(), AllocError>
    ensures keys { IfOk result (λ _. keys.new.keys ≡ with_all keys.old.keys (map (key_of at) to.now)) }
    ensures fit { All (λ t. t < 2 ^ 32) to.now }
{
    for target in to {
        keys.insert(at as u64 * ABOVE + *target as u64)?;
    }
    Ok(())
}

// The targets of an address, rising.
fn targets(alloc: Global, keys: &BTreeSet<u64>, at: Addr) -> Result<Vec<Addr>, AllocError>
    ensures { IfOk result (λ v. v.items ≡ targets_in keys.now.keys at) }
{
    let mut found = Vec::new(alloc);
    let first = at as u64 * ABOVE;
    for key in keys.range(first..=first + (ABOVE - 1)) {
        found.push((*key % ABOVE) as u32)?;
    }
    Ok(found)
}

impl Stated {
    pub fn new(alloc: Global, facts: &Facts) -> Result<Self, AllocError>
        ensures { IfOk result (AreStated (map (λ f. f.1) facts.now)) }
    {
        let mut stated = Stated {
            jumps: BTreeSet::new(alloc),
            calls: BTreeSet::new(alloc),
            noreturns: BTreeSet::new(alloc),
        };
        for fact in facts.items() {
            stated.add(&fact.1)?;
        }
        Ok(stated)
    }

    // One fact more.
    fn add(&mut self, fact: &Fact) -> Result<(), AllocError>
        ensures { IfOk result (λ _. Adds fact.now self.old self.new) }
    {
        match fact {
            Fact::Multibranch { at, to } => put_all(&mut self.jumps, *at, to.items()),
            Fact::Multicall { at, to } => put_all(&mut self.calls, *at, to.items()),
            Fact::Noreturn { at } => {
                self.noreturns.insert(*at)?;
                Ok(())
            }
            _ => Ok(()),
        }
    }

    /// The targets that are stated of the indirect jump there, rising, each once.
    pub fn jumps_of(&self, alloc: Global, at: Addr) -> Result<Vec<Addr>, AllocError>
        ensures { IfOk result (λ v. v.items ≡ targets_in self.now.jumps.keys at) }
    {
        targets(alloc, &self.jumps, at)
    }

    /// The targets that are stated of the indirect call there, rising, each once.
    pub fn calls_of(&self, alloc: Global, at: Addr) -> Result<Vec<Addr>, AllocError>
        ensures { IfOk result (λ v. v.items ≡ targets_in self.now.calls.keys at) }
    {
        targets(alloc, &self.calls, at)
    }

    /// Whether a function is stated not to return.
    pub fn is_noreturn(&self, callee: Addr) -> bool
        ensures { result ≡ has_number callee self.now.noreturns.keys }
    {
        self.noreturns.contains(&callee)
    }
}
