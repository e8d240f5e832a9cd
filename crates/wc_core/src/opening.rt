ghost use Rattle.std.specs.Prelude.{ℕ, ◌≡◌, List, ◌∷◌, [], ◌++◌, ◌+◌, ◌<◌, ◌≤◌, All, IfOk, map};
ghost use Rattle.wc_model.specs.declared.elf_image.Image.{Image};
ghost use Rattle.wc_model.specs.declared.inputs.Edit.{Edit};
ghost use Rattle.wc_model.specs.Workspace.Closures.{order_of};
ghost use Rattle.wc_model.specs.Workspace.Edits.{setting_of};
ghost use Rattle.wc_model.specs.Workspace.History.{IsLegal};
ghost use Rattle.wc_core.specs.Answers.{AreRuns, RunsNothing};
ghost use Rattle.wc_core.specs.Inner.Begins.{AreBegun};
ghost use Rattle.wc_core.specs.Openings.{IsOpened, IsStaffed, opening_with, works_in};

use crate::seats::Seats;
use crate::shared::Core;
use crate::store::Store;
use crate::touching::{edit_inputs, stamp, touched_by};
use crate::work::Work;
use crate::works::Works;
use std::alloc::{AllocError, Global};
use std::sync::Arc;
use wc_model::{
    Edit, Entry, Fact, Facts, Hardware, Image, Inputs, Kind, copy_fact, default_hardware,
};
use wc_registry::Registry;

// A kind with no stamp yet.
fn first_key(kind: Kind) -> (Kind, u64)
    ensures key { result ≡ (kind, 0) }
    ensures below { kind < 65 }
{
    let _number = kind.number();
    (kind, 0)
}

// Each kind, with no stamp yet.
fn first_keys(alloc: Global, order: &[Kind]) -> Result<Vec<(Kind, u64)>, AllocError>
    ensures keys { IfOk result (λ ks. ks.items ≡ map (λ k. (k, 0)) order.now) }
    ensures below { IfOk result (λ ks. All (λ k. k.0 < 65) ks.items) }
{
    let mut keys = Vec::with_capacity(alloc, order.len())?;
    for kind in order {
        keys.push(first_key(*kind))?;
    }
    Ok(keys)
}

fn count_of<W: Work>(works: &[W], kind: Kind) -> u64
    ensures { works_in (map W.kind_of works.now) (kind ∷ []) ≡ (kind, result) ∷ [] }
{
    let mut count = 0;
    for work in works {
        if work.kind().number() == kind.number() {
            count += 1;
        }
    }
    count
}

// How many works each kind has.
fn counts_of<W: Work>(
    alloc: Global,
    order: &[Kind],
    works: &[W],
) -> Result<Vec<(Kind, u64)>, AllocError>
    ensures { IfOk result (λ cs. cs.items ≡ works_in (map W.kind_of works.now) order.now) }
{
    let mut counts = Vec::with_capacity(alloc, order.len())?;
    for kind in order {
        counts.push((*kind, count_of(works, *kind)))?;
    }
    Ok(counts)
}

// What grows with each opening edit.
#[derive(Drop)]
struct Opened {
    inputs: Arc<Inputs>,
    keys: Vec<(Kind, u64)>,
    history: Vec<Entry>,
}

impl Opened {
    fn new(alloc: Global, image: Arc<Image>, registry: &Registry) -> Result<Opened, AllocError>
        ensures begun { IfOk result (λ d. AreBegun registry.now image.value [] (setting_of d.inputs.value) d.keys.items d.history.items) }
        ensures below { IfOk result (λ _. All (λ k. k < 65) (order_of registry.now)) }
    {
        let inputs = Inputs {
            image,
            facts: Facts::new(Vec::new(alloc)),
            hardware: default_hardware(),
        };
        Ok(Opened {
            inputs: Arc::new(alloc, inputs)?,
            keys: first_keys(alloc, registry.order())?,
            history: Vec::new(alloc),
        })
    }

    fn add(&mut self, alloc: Global, registry: &Registry, edit: Edit) -> Result<(), AllocError>
        ensures { (image : Image) (edits : List Edit) → AreBegun registry.now image edits (setting_of self.old.inputs.value) self.old.keys.items self.old.history.items → IfOk result (λ _. AreBegun registry.now image (edits ++ edit ∷ []) (setting_of self.new.inputs.value) self.new.keys.items self.new.history.items) }
    {
        let count = self.history.len() as u64 + 1;
        let touched = touched_by(&self.inputs, &edit);
        edit_inputs(alloc, &mut self.inputs, count, &edit)?;
        stamp(&mut self.keys, registry, touched, count);
        self.history.push(Entry::Edit {
            session: 0,
            count,
            edit,
        })?;
        Ok(())
    }

    fn add_facts(
        &mut self,
        alloc: Global,
        registry: &Registry,
        facts: &[Fact],
    ) -> Result<(), AllocError>
        ensures { (image : Image) (edits : List Edit) → AreBegun registry.now image edits (setting_of self.old.inputs.value) self.old.keys.items self.old.history.items → IfOk result (λ _. AreBegun registry.now image (edits ++ map Edit.Add facts.now) (setting_of self.new.inputs.value) self.new.keys.items self.new.history.items) }
    {
        for fact in facts {
            self.add(alloc, registry, Edit::Add(copy_fact(fact)?))?;
        }
        Ok(())
    }
}

impl<W: Work> Core<W> {
    /// A core whose history has the opening edits. Each kind of the registry has a work, no work has another kind, and
    /// none has run.
    pub fn new(
        alloc: Global,
        image: Arc<Image>,
        registry: Registry,
        works: Vec<W>,
        hardware: Hardware,
        facts: Vec<Fact>,
        sessions: u32,
    ) -> Result<Core<W>, AllocError>
        requires described { registry ≡ W.described }
        requires staffed { IsStaffed registry (map W.kind_of works.items) }
        requires runs { All (λ w. W.runs_of w ≡ 0) works.items }
        requires sessions { (1 ≤ sessions) × (sessions ≤ 64) }
        ensures { IfOk result (IsOpened W.chain (opening_with image.value registry (map W.kind_of works.items) hardware facts.items sessions)) }
    {
        let mut opened = Opened::new(alloc, image, &registry)?;
        opened.add(alloc, &registry, Edit::Hardware(hardware))?;
        opened.add_facts(alloc, &registry, facts.as_slice())?;
        let Opened {
            inputs,
            keys,
            history,
        } = opened;
        let counts = counts_of(alloc, registry.order(), works.as_slice())?;
        Ok(Core {
            registry,
            counts,
            hardware,
            facts,
            sessions,
            inputs,
            count: history.len() as u64,
            keys,
            store: Store::new(alloc),
            works: Works::new(alloc, works)?,
            seats: Seats::new(alloc, sessions as usize + 1)?,
            owed: 0,
            history,
        })
    }

    /// The history, and all works with their runs.
    pub fn close(self) -> (Vec<Entry>, Vec<W>)
        requires { RunsNothing self.opening self.history }
        ensures history { result.0.items ≡ self.history }
        ensures legal { IsLegal W.chain self.opening result.0.items }
        ensures runs { AreRuns self.opening self.history (map (λ w. (W.kind_of w, W.runs_of w)) result.1.items) }
    {
        let Core {
            registry: _,
            counts: _,
            hardware: _,
            facts: _,
            sessions: _,
            inputs: _,
            count: _,
            keys: _,
            store: _,
            works,
            seats: _,
            owed: _,
            history,
        } = self;
        (history, works.close())
    }
}
