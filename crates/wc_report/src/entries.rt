ghost use Rattle.std.specs.Prelude.{◌≡◌, ◌++◌, codes, decimal};
ghost use Rattle.wc_io.specs.Causes.{HasCause};
ghost use Rattle.wc_io.specs.Writing.{Writes};
ghost use Rattle.wc_report.specs.ReportText.{IsOfKinds, entry_line, entry_text};
ghost use Rattle.wc_report.specs.ReportText.{list_line, pin_line, refused_line};

use crate::answers::write_answer_entry;
use crate::edits::write_edit_entry;
use crate::runs::{write_finish, write_start};
use wc_io::{Failed, Piece, Sink, write_pieces, write_whole};
use wc_model::{Entry, Text};

fn write_list_entry<K: Sink>(sink: &mut K, session: u32, at: u64) -> Result<(), Failed>
    ensures text { Writes (K.held sink.old) (K.held sink.new) result (list_line session at) }
    ensures cause { HasCause (K.faults sink.old) (K.faults sink.new) result }
    ensures place { K.place sink.new ≡ K.place sink.old }
{
    write_pieces(
        sink,
        &[
            Piece::Bytes(b"list "),
            Piece::Decimal(session as u128),
            Piece::Bytes(b" at "),
            Piece::Decimal(at as u128),
        ],
    )
}

fn write_refused_drop<K: Sink>(
    sink: &mut K,
    session: u32,
    number: u64,
    at: u64,
) -> Result<(), Failed>
    ensures text { Writes (K.held sink.old) (K.held sink.new) result (refused_line session number at) }
    ensures cause { HasCause (K.faults sink.old) (K.faults sink.new) result }
    ensures place { K.place sink.new ≡ K.place sink.old }
{
    write_pieces(
        sink,
        &[
            Piece::Bytes(b"nofact "),
            Piece::Decimal(session as u128),
            Piece::Bytes(b" "),
            Piece::Decimal(number as u128),
            Piece::Bytes(b" at "),
            Piece::Decimal(at as u128),
        ],
    )
}

fn write_pin<K: Sink>(sink: &mut K, session: u32, name: &Text, at: u64) -> Result<(), Failed>
    ensures text { Writes (K.held sink.old) (K.held sink.new) result (pin_line session name.now at) }
    ensures cause { HasCause (K.faults sink.old) (K.faults sink.new) result }
    ensures place { K.place sink.new ≡ K.place sink.old }
{
    write_pieces(
        sink,
        &[
            Piece::Bytes(b"pin "),
            Piece::Decimal(session as u128),
            Piece::Bytes(b" "),
            Piece::Bytes(name.items()),
            Piece::Bytes(b" at "),
            Piece::Decimal(at as u128),
        ],
    )
}

fn write_entry<K: Sink>(sink: &mut K, entry: &Entry) -> Result<(), Failed>
    requires { IsOfKinds entry.now }
    ensures text { Writes (K.held sink.old) (K.held sink.new) result (entry_text entry.now) }
    ensures cause { HasCause (K.faults sink.old) (K.faults sink.new) result }
    ensures place { K.place sink.new ≡ K.place sink.old }
{
    match entry {
        Entry::Edit {
            session,
            count,
            edit,
        } => write_edit_entry(sink, *session, *count, edit),
        Entry::NoFact {
            session,
            number,
            at,
        } => write_refused_drop(sink, *session, *number, *at),
        Entry::Pin { session, name, at } => write_pin(sink, *session, name, *at),
        Entry::Start {
            session,
            kind,
            name,
            stamp,
        } => write_start(sink, *session, *kind, name, *stamp),
        Entry::Finish {
            session,
            kind,
            name,
            stamp,
            end,
        } => write_finish(sink, *session, *kind, name, *stamp, *end),
        Entry::Answer {
            session,
            name,
            at,
            outcome,
        } => write_answer_entry(sink, *session, name, *at, *outcome),
        Entry::List { session, at } => write_list_entry(sink, *session, *at),
    }
}

fn write_ended_entry<K: Sink>(sink: &mut K, entry: &Entry) -> Result<(), Failed>
    requires { IsOfKinds entry.now }
    ensures text { Writes (K.held sink.old) (K.held sink.new) result (entry_text entry.now ++ codes "\n") }
    ensures cause { HasCause (K.faults sink.old) (K.faults sink.new) result }
    ensures place { K.place sink.new ≡ K.place sink.old }
{
    match write_entry(sink, entry) {
        Ok(()) => write_whole(sink, b"\n"),
        Err(Failed) => Err(Failed),
    }
}

fn write_place<K: Sink>(sink: &mut K, place: u64) -> Result<(), Failed>
    ensures text { Writes (K.held sink.old) (K.held sink.new) result (decimal place ++ codes " ") }
    ensures cause { HasCause (K.faults sink.old) (K.faults sink.new) result }
    ensures place { K.place sink.new ≡ K.place sink.old }
{
    write_pieces(sink, &[Piece::Decimal(place as u128), Piece::Bytes(b" ")])
}

/// An entry behind its place in the history.
pub fn write_entry_line<K: Sink>(sink: &mut K, place: u64, entry: &Entry) -> Result<(), Failed>
    requires { IsOfKinds entry.now }
    ensures text { Writes (K.held sink.old) (K.held sink.new) result (entry_line place entry.now) }
    ensures cause { HasCause (K.faults sink.old) (K.faults sink.new) result }
    ensures place { K.place sink.new ≡ K.place sink.old }
{
    match write_place(sink, place) {
        Ok(()) => write_ended_entry(sink, entry),
        Err(Failed) => Err(Failed),
    }
}
