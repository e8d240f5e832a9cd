ghost use Rattle.std.specs.Prelude.{◌≡◌};
ghost use Rattle.wc_model.specs.Workspace.History.{IsLegal};

use crate::seats::Seats;
use crate::store::Store;
use crate::work::Work;
use crate::works::Works;
use std::marker::Model;
use std::sync::Arc;
use wc_model::{Entry, Fact, Hardware, Inputs, Kind};
use wc_registry::Registry;

/// The shared workspace without locks: the inputs with each kind's stamp, the stored values, the works at home and the
/// runs that are out, what open asks may still need, and the history. What it keeps true of them is `IsCore` in
/// `specs/Inner/Stocks.antt`: of the store's keys and copies `AreLines`, `AreCopied` and `IsTidy`.
#[derive(Drop)]
pub struct Core<W: Work> {
    pub(crate) registry: Registry,
    pub(crate) counts: Vec<(Kind, u64)>,
    pub(crate) hardware: Hardware,
    pub(crate) facts: Vec<Fact>,
    pub(crate) sessions: u32,
    pub(crate) inputs: Arc<Inputs>,
    pub(crate) count: u64,
    pub(crate) keys: Vec<(Kind, u64)>,
    pub(crate) store: Store<W::Value>,
    pub(crate) works: Works<W>,
    pub(crate) seats: Seats,
    pub(crate) owed: usize,
    pub(crate) history: Vec<Entry>,
}

impl<W: Work> Model for Core<W> {
    ghost use Rattle.std.specs.Prelude.{◌≡◌, ◌≤◌};
    ghost use Rattle.std.specs.Vec.{vec_capacity};
    ghost use Rattle.wc_model.specs.Workspace.Edits.{setting_of};
    ghost use Rattle.wc_core.specs.Inner.Stocks.{IsCore};
    ghost use Rattle.wc_core.specs.Views.{Known};

    ghost Value = { Known };

    ghost view = { λ c. record { opening = record { image = c.inputs.value.image.value; kinds = c.registry; works = c.counts.items; hardware = c.hardware; facts = c.facts.items; sessions = c.sessions }; history = c.history.items } };

    ghost invariant = { λ c. IsCore W.chain W.is_feature (record { image = c.inputs.value.image.value; kinds = c.registry; works = c.counts.items; hardware = c.hardware; facts = c.facts.items; sessions = c.sessions }) c.history.items (record { inputs = setting_of c.inputs.value; count = c.count; keys = c.keys.items; lines = c.store.lines; home = c.works.home; out = c.works.out; seats = c.seats; owed = c.owed; spare = c.store.spare; room = vec_capacity c.history }) × (c.registry ≡ W.described) × (c.sessions ≤ 64) };
}

impl<W: Work> Core<W> {
    /// All entries since the core was made, in order. They are a legal history.
    pub fn history(&self) -> &[Entry]
        ensures history { result.now ≡ self.now.history }
        ensures legal { IsLegal W.chain self.now.opening result.now }
    {
        self.history.as_slice()
    }
}
