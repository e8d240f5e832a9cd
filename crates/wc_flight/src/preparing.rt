ghost use Rattle.std.specs.Prelude.{◌≡◌, ◌≤◌, ◌++◌, [], All, IfOk, map};
ghost use Rattle.wc_core.specs.Openings.{IsStaffed};
ghost use Rattle.wc_flight.specs.Openings.{Opens, shown};
ghost use Rattle.wc_model.specs.Workspace.Entries.{session_of};

use std::alloc::{AllocError, Global};
use std::marker::Model;
use std::sync::Arc;
use wc_core::{Core, Work};
use wc_model::{Entry, Fact, Hardware, Image};
use wc_pass::{Desk, Pass, Pen};
use wc_registry::Registry;

/// All that a workspace is made of. Contracts see the desk and the opening.
#[derive(Drop)]
pub struct Prepared<W: Work> {
    pub(crate) core: Core<W>,
    pub(crate) desk: Desk,
    pub(crate) pen: Pen,
    pub(crate) passes: Vec<Pass>,
}

impl<W: Work> Model for Prepared<W> {
    ghost use Rattle.wc_flight.specs.Openings.{ArePrepared, KnownPrepared};

    ghost Value = { KnownPrepared };

    ghost view = { λ p. record { desk = p.desk; opening = p.core.opening } };

    ghost invariant = { λ p. ArePrepared W.chain p.desk p.core p.pen p.passes.items };
}

// Publishes the opening entries.
fn publish_all(pen: &mut Pen, desk: &Desk, entries: &[Entry])
    requires desk { pen.old.desk ≡ desk.now }
    requires opening { All (λ e. session_of e ≡ 0) entries.now }
    requires empty { pen.old.seen ≡ [] }
    ensures { pen.new ≡ record pen.old { seen = entries.now } }
{
    for entry in entries {
        pen.publish(desk, entry);
    }
}

// Shows each pass what is published.
fn show_all(
    alloc: Global,
    pen: &mut Pen,
    desk: &Desk,
    passes: Vec<Pass>,
) -> Result<Vec<Pass>, AllocError>
    requires { (pen.old.desk ≡ desk.now) × All (λ p. p.desk ≡ desk.now) passes.items }
    ensures same { pen.new ≡ pen.old }
    ensures seen { IfOk result (λ ps. ps.items ≡ map (shown pen.old.seen) passes.items) }
{
    let mut ready = Vec::with_capacity(alloc, passes.len())?;
    for mut pass in passes {
        pen.meet(desk, &mut pass);
        ready.push_reserved(pass);
    }
    Ok(ready)
}

/// Makes the core, the desk, the pen and the passes. Each pass has seen the opening entries.
pub fn prepare<W: Work + Send>(
    alloc: Global,
    image: Arc<Image>,
    registry: Registry,
    works: Vec<W>,
    hardware: Hardware,
    facts: Vec<Fact>,
    sessions: u32,
) -> Result<Prepared<W>, AllocError>
    requires described { registry ≡ W.described }
    requires staffed { IsStaffed registry (map W.kind_of works.items) }
    requires runs { All (λ w. W.runs_of w ≡ 0) works.items }
    requires sessions { (1 ≤ sessions) × (sessions ≤ 64) }
    ensures { IfOk result (Opens image registry (map W.kind_of works.items) hardware facts.items sessions) }
{
    let core = Core::new(alloc, image, registry, works, hardware, facts, sessions)?;
    let (desk, mut pen, passes) = Desk::new(alloc, sessions)?;
    publish_all(&mut pen, &desk, core.history());
    let passes = show_all(alloc, &mut pen, &desk, passes)?;
    Ok(Prepared {
        core,
        desk,
        pen,
        passes,
    })
}
