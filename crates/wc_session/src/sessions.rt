ghost use Rattle.std.specs.Prelude.{◌≡◌, ◌≤◌, IsFalse};
ghost use Rattle.wc_core.specs.Answers.{LeavesFree};
ghost use Rattle.wc_io.specs.Causes.{Rose};
ghost use Rattle.wc_model.specs.Workspace.History.{IsLegal};
ghost use Rattle.wc_session.specs.Alone.{IsAlone};
ghost use Rattle.wc_session.specs.Served.{IsServed};

use crate::serving::serve_all;
use std::alloc::Global;
use std::sync::Wait;
use wc_core::{Core, Work};
use wc_io::{Lines, Sink, Source};
use wc_model::{Ended, Image};

/// The number of the one session.
pub const SESSION: u32 = 1;

/// What a session gives back.
#[derive(Debug, Drop)]
pub struct SessionEnd<S: Source, K: Sink> {
    pub source: S,
    pub sink: K,
    pub ended: Ended,
}

/// Answers the lines of a script, one after the other, up to `quit`, too much or its end. Each reply is written before
/// the next line is read. A failed read or write ends the session.
pub fn session<R: Wait, W: Work + Send, S: Source, K: Sink>(
    _rt: &R,
    alloc: Global,
    core: &mut Core<W>,
    image: &Image,
    mut lines: Lines<S>,
    mut sink: K,
) -> SessionEnd<S, K>
    requires free { LeavesFree core.old.opening core.old.history 1 }
    requires alone { IsAlone core.old.opening }
    requires unread { IsFalse lines.ended }
    ensures opening { core.new.opening ≡ core.old.opening }
    ensures legal { IsLegal W.chain core.old.opening core.old.history → IsLegal W.chain core.new.opening core.new.history }
    ensures free { LeavesFree core.new.opening core.new.history 1 }
    ensures served { IsServed 1 image.now core.old.history core.new.history lines.rest (K.held sink) (K.held result.sink) result.ended }
    ensures read_fault { result.ended ≡ Ended.ReadFault → Rose lines.faults (S.faults result.source) }
    ensures write_fault { result.ended ≡ Ended.WriteFault → Rose (K.faults sink) (K.faults result.sink) }
    ensures reads_later { lines.faults ≤ S.faults result.source }
    ensures writes_later { K.faults sink ≤ K.faults result.sink }
    ensures source_place { S.place result.source ≡ lines.place }
    ensures sink_place { K.place result.sink ≡ K.place sink }
{
    let ended = serve_all(alloc, core, image, &mut lines, &mut sink);
    SessionEnd {
        source: lines.into_source(),
        sink,
        ended,
    }
}
