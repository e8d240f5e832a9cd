ghost use Rattle.std.specs.Prelude.{◌≡◌, ◌<◌, IfOk, IfSome, None, length, replicate};
ghost use Rattle.wc_fix.specs.Inner.Fixing.{AddsNoWork, Brings, Follows, IsBegun, IsPaired, IsRaised};
ghost use Rattle.wc_fix.specs.Inner.Fixing.{KeepsFixing, LeadInside, Leads, Ready, state_at};
ghost use Rattle.wc_fix.specs.Solved.{Alike, AllAlike};
ghost use Rattle.wc_model.specs.Cache.Ages.{fetched};

use crate::Lattice;
use crate::waiting::Waiting;
use std::alloc::{AllocError, Global};
use wc_model::Step;

// A state goes up to what is above both, and tells whether that changed it.
fn raise<L: Lattice>(slot: &mut Option<L>, after: &L) -> Result<bool, AllocError>
    requires { IfSome slot.old (Alike ⟦<L as Lattice>⟧ after.now) }
    ensures { IfOk result (IsRaised ⟦<L as Lattice>⟧ slot.old after.now slot.new) }
{
    match slot {
        Some(state) => Ok(state.join(after)),
        None => {
            *slot = Some(after.copy()?);
            Ok(true)
        }
    }
}

// What a node brings along its steps.
fn after_fetch<L: Lattice>(state: &L, line: Option<u32>) -> Result<L, AllocError>
    requires { IfSome line (λ l. l < L.lines state.now) }
    ensures alike { IfOk result (Alike ⟦<L as Lattice>⟧ state.now) }
    ensures state { IfOk result (λ a. L.state a ≡ fetched L.precise L.accessed line (L.state state.now)) }
{
    let mut after = state.copy()?;
    if let Some(line) = line {
        after.access(line);
    }
    Ok(after)
}

// The states so far, and the nodes whose states changed since they were looked at.
#[derive(Drop)]
pub struct Fixing<L> {
    pub states: Vec<Option<L>>,
    pub waiting: Waiting,
}

impl<L: Lattice> Fixing<L> {
    // What is brought to a node.
    fn lead(&mut self, target: u32, after: &L) -> Result<(), AllocError>
        requires states { target < length self.old.states.items }
        requires waiting { target < length self.old.waiting }
        requires alike { IfSome (state_at self.old.states.items target) (Alike ⟦<L as Lattice>⟧ after.now) }
        ensures { IfOk result (λ _. Leads ⟦<L as Lattice>⟧ target after.now self.old self.new) }
    {
        if raise(&mut self.states[target as usize], after)? {
            self.waiting.add(target)?;
        }
        Ok(())
    }

    // What is brought along one step.
    fn bring(&mut self, step: &Step, after: &L) -> Result<(), AllocError>
        requires paired { IsPaired self.old }
        requires target { IfSome step.now.target (λ q. q < length self.old.states.items) }
        requires alike { AllAlike ⟦<L as Lattice>⟧ after.now self.old.states.items }
        ensures { IfOk result (λ _. Brings ⟦<L as Lattice>⟧ step.now.target after.now self.old self.new) }
    {
        match step.target {
            Some(target) => self.lead(target, after),
            None => Ok(()),
        }
    }

    // What is brought along the steps of a node.
    fn bring_along(&mut self, steps: &[Step], after: &L) -> Result<(), AllocError>
        requires paired { IsPaired self.old }
        requires targets { LeadInside self.old steps.now }
        requires alike { AllAlike ⟦<L as Lattice>⟧ after.now self.old.states.items }
        ensures visit { IfOk result (λ _. Follows ⟦<L as Lattice>⟧ after.now steps.now self.old self.new) }
        ensures work { IfOk result (λ _. AddsNoWork ⟦<L as Lattice>⟧ self.old self.new) }
    {
        for step in steps {
            self.bring(step, after)?;
        }
        Ok(())
    }

    /// A node that waited is looked at.
    pub fn visit(&mut self, steps: &[Step], node: u32, line: Option<u32>) -> Result<(), AllocError>
        requires { Ready ⟦<L as Lattice>⟧ self.old node steps.now line }
        ensures kept { IfOk result (λ _. KeepsFixing ⟦<L as Lattice>⟧ node steps.now line self.old self.new) }
        ensures work { IfOk result (λ _. AddsNoWork ⟦<L as Lattice>⟧ self.old self.new) }
    {
        if let Some(state) = &self.states[node as usize] {
            let after = after_fetch(state, line)?;
            self.bring_along(steps, &after)?;
        }
        Ok(())
    }

    /// At first the start alone has a state.
    pub fn new(alloc: Global, nodes: u32, start: u32, first: L) -> Result<Self, AllocError>
        requires { start < nodes }
        ensures { IfOk result (IsBegun nodes start first) }
    {
        let mut states = no_states(alloc, nodes)?;
        let mut waiting = Waiting::new(alloc, nodes)?;
        states[start as usize] = Some(first);
        waiting.add(start)?;
        Ok(Fixing { states, waiting })
    }
}

fn no_states<L: Drop>(alloc: Global, nodes: u32) -> Result<Vec<Option<L>>, AllocError>
    ensures { IfOk result (λ v. v.items ≡ replicate nodes None) }
{
    let mut states = Vec::with_capacity(alloc, nodes as usize)?;
    for _node in 0..nodes {
        states.push(None)?;
    }
    Ok(states)
}
