ghost use Rattle.std.specs.Prelude.{◌≡◌, ◌≤◌, ◌+◌, false, None, Some, IsFalse};
ghost use Rattle.wc_flight.specs.Calls.{IsReady};
ghost use Rattle.wc_io.specs.Causes.{HasCause, Rose};
ghost use Rattle.wc_io.specs.Lines.{given};
ghost use Rattle.wc_io.specs.Writing.{Writes};
ghost use Rattle.wc_session.specs.Parts.{Sends};
ghost use Rattle.wc_session.specs.ReplyText.{text_of};
ghost use Rattle.wc_session_next.specs.Parts.{AnswersLine, IsPart, KeepsPass};

use crate::following::{Answer, follow};
use std::alloc::Global;
use std::sync::Wait;
use wc_base::Fault;
use wc_core::Work;
use wc_flight::{Named, Workspace};
use wc_io::{Failed, LineRead, Lines, Sink, Source};
use wc_model::{Ended, Image};
use wc_pass::Pass;
use wc_report::{Reply, write_reply};
use wc_session::read_command;

fn answer_line<R: Wait, N: Named, W: Work + Send>(
    rt: &R,
    alloc: Global,
    workspace: &Workspace<N, W>,
    image: &Image,
    pass: &mut Pass,
    line: &[u8],
) -> Answer
    requires { IsReady N.desk N.opening pass.old }
    ensures kept { KeepsPass W.chain N.desk N.opening pass.old pass.new }
    ensures answer { AnswersLine image.now pass.old pass.new (given line.now) result.reply result.ended }
{
    match read_command(alloc, line, image) {
        Ok(command) => follow(rt, alloc, workspace, pass, command),
        Err(trouble) => Answer::of(Reply::from(trouble)),
    }
}

// Appends the reply to a line that may have none.
fn write_any<K: Sink>(sink: &mut K, reply: &Option<Reply>) -> Result<(), Failed>
    ensures text { Writes (K.held sink.old) (K.held sink.new) result (text_of reply.now) }
    ensures cause { HasCause (K.faults sink.old) (K.faults sink.new) result }
    ensures place { K.place sink.new ≡ K.place sink.old }
{
    match reply {
        Some(reply) => write_reply(sink, reply),
        None => Ok(()),
    }
}

/// Writes the reply, and tells how the session ends where it does.
fn send<K: Sink>(sink: &mut K, answer: &Answer) -> Option<Ended>
    ensures sent { Sends answer.now.reply answer.now.ended (K.held sink.old) (K.held sink.new) (K.faults sink.old) (K.faults sink.new) result }
    ensures later { K.faults sink.old ≤ K.faults sink.new }
    ensures place { K.place sink.new ≡ K.place sink.old }
{
    match write_any(sink, &answer.reply) {
        Ok(()) => answer.ended,
        Err(Failed) => Some(Ended::WriteFault),
    }
}

/// Reads one line more and answers it.
fn serve_next<R: Wait, N: Named, W: Work + Send, S: Source, K: Sink>(
    rt: &R,
    alloc: Global,
    workspace: &Workspace<N, W>,
    image: &Image,
    pass: &mut Pass,
    lines: &mut Lines<S>,
    sink: &mut K,
) -> Option<Ended>
    requires ready { IsReady N.desk N.opening pass.old }
    requires unread { IsFalse lines.old.ended }
    ensures kept { KeepsPass W.chain N.desk N.opening pass.old pass.new }
    ensures part { IsPart image.now pass.old pass.new lines.old.rest lines.new.rest (K.held sink.old) (K.held sink.new) result }
    ensures read_fault { result ≡ Some Ended.ReadFault → Rose lines.old.faults lines.new.faults }
    ensures write_fault { result ≡ Some Ended.WriteFault → Rose (K.faults sink.old) (K.faults sink.new) }
    ensures reads_later { lines.old.faults ≤ lines.new.faults }
    ensures writes_later { K.faults sink.old ≤ K.faults sink.new }
    ensures source_place { lines.new.place ≡ lines.old.place }
    ensures sink_place { K.place sink.new ≡ K.place sink.old }
    ensures unread { result ≡ None → lines.new.ended ≡ false }
    ensures count { result ≡ None → lines.new.count ≡ lines.old.count + 1 }
    ensures few { lines.new.count ≤ 10000 }
{
    match lines.next_line() {
        LineRead::Line => {
            let answer = answer_line(rt, alloc, workspace, image, pass, lines.line());
            send(sink, &answer)
        }
        LineRead::TooLong => send(sink, &Answer::of(Reply::Refused(Fault::LongLine))),
        LineRead::TooMuch => send(
            sink,
            &Answer {
                reply: Some(Reply::Refused(Fault::TooMuch)),
                ended: Some(Ended::TooMuch),
            },
        ),
        LineRead::End => Some(Ended::End),
        LineRead::ReadFault => Some(Ended::ReadFault),
    }
}

/// Answers the lines to come until the session ends.
pub fn serve_all<R: Wait, N: Named, W: Work + Send, S: Source, K: Sink>(
    rt: &R,
    alloc: Global,
    workspace: &Workspace<N, W>,
    image: &Image,
    pass: &mut Pass,
    lines: &mut Lines<S>,
    sink: &mut K,
) -> Ended
    requires ready { IsReady N.desk N.opening pass.old }
    requires unread { IsFalse lines.old.ended }
    ensures kept { KeepsPass W.chain N.desk N.opening pass.old pass.new }
    ensures part { IsPart image.now pass.old pass.new lines.old.rest lines.new.rest (K.held sink.old) (K.held sink.new) (Some result) }
    ensures read_fault { result ≡ Ended.ReadFault → Rose lines.old.faults lines.new.faults }
    ensures write_fault { result ≡ Ended.WriteFault → Rose (K.faults sink.old) (K.faults sink.new) }
    ensures reads_later { lines.old.faults ≤ lines.new.faults }
    ensures writes_later { K.faults sink.old ≤ K.faults sink.new }
    ensures source_place { lines.new.place ≡ lines.old.place }
    ensures sink_place { K.place sink.new ≡ K.place sink.old }
{
    loop {
        if let Some(ended) = serve_next(rt, alloc, workspace, image, pass, lines, sink) {
            return ended;
        }
    }
}
