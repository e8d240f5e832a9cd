ghost use Rattle.std.specs.Prelude.{◌≡◌, ◌≤◌, IsFalse};
ghost use Rattle.wc_flight.specs.Calls.{IsReady};
ghost use Rattle.wc_io.specs.Causes.{Rose};
ghost use Rattle.wc_model.specs.Workspace.History.{IsLegal};
ghost use Rattle.wc_session_next.specs.Served.{IsServed};

use crate::serving::serve_all;
use std::alloc::Global;
use std::sync::Wait;
use wc_core::Work;
use wc_flight::{Named, Workspace};
use wc_io::{Lines, Sink, Source};
use wc_model::{Ended, Image};
use wc_pass::Pass;

/// What a session gives back.
#[derive(Drop)]
pub struct SessionEnd<S: Source, K: Sink> {
    pub pass: Pass,
    pub source: S,
    pub sink: K,
    pub ended: Ended,
}

/// Answers the lines of a script, one after the other, up to `quit`, too much or its end. Each reply is written before
/// the next line is read. A failed read or write ends the session.
pub fn session<R: Wait, N: Named, W: Work + Send, S: Source, K: Sink>(
    rt: &R,
    alloc: Global,
    workspace: &Workspace<N, W>,
    image: &Image,
    mut pass: Pass,
    mut lines: Lines<S>,
    mut sink: K,
) -> SessionEnd<S, K>
    requires ready { IsReady N.desk N.opening pass }
    requires unread { IsFalse lines.ended }
    ensures ready { IsReady N.desk N.opening result.pass }
    ensures session { result.pass.session ≡ pass.session }
    ensures legal { IsLegal W.chain N.opening pass.seen → IsLegal W.chain N.opening result.pass.seen }
    ensures served { IsServed image.now pass result.pass lines.rest (K.held sink) (K.held result.sink) result.ended }
    ensures read_fault { result.ended ≡ Ended.ReadFault → Rose lines.faults (S.faults result.source) }
    ensures write_fault { result.ended ≡ Ended.WriteFault → Rose (K.faults sink) (K.faults result.sink) }
    ensures reads_later { lines.faults ≤ S.faults result.source }
    ensures writes_later { K.faults sink ≤ K.faults result.sink }
    ensures source_place { S.place result.source ≡ lines.place }
    ensures sink_place { K.place result.sink ≡ K.place sink }
{
    let ended = serve_all(
        rt, alloc, workspace, image, &mut pass, &mut lines, &mut sink,
    );
    SessionEnd {
        pass,
        source: lines.into_source(),
        sink,
        ended,
    }
}
