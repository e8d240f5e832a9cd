ghost use Rattle.std.specs.Prelude.{◌≡◌, IfOk, OnErr};
ghost use Rattle.wc_core.specs.Answers.{LeavesFree};
ghost use Rattle.wc_session.specs.Alone.{IsAlone};
ghost use Rattle.wc_session.specs.Parts.{AddsAsk, KeepsCore};

use crate::sessions::SESSION;
use std::alloc::{AllocError, Global};
use wc_core::{Core, Next, Work};
use wc_model::Asked;

/// One ask from its pin to its answer.
pub fn ask<W: Work>(alloc: Global, core: &mut Core<W>, name: &[u8]) -> Result<Asked, AllocError>
    requires free { LeavesFree core.old.opening core.old.history 1 }
    requires alone { IsAlone core.old.opening }
    ensures kept { IfOk result (λ _. KeepsCore W.chain 1 core.old core.new) }
    ensures answer { IfOk result (AddsAsk 1 name.now core.old.history core.new.history) }
    ensures memory { OnErr result (core.new ≡ core.old) }
{
    let mut ticket = core.pin(SESSION, name)?;
    loop {
        match core.next(ticket) {
            Next::Done(asked) => return Ok(asked),
            Next::Run(flight) => ticket = core.give(flight.run(alloc)),
            Next::Busy(back, _session) => ticket = back,
        }
    }
}
