ghost use Rattle.std.specs.Prelude.{◌≡◌, ◌≤◌, ◌++◌, codes};
ghost use Rattle.wc_io.specs.Causes.{HasCause};
ghost use Rattle.wc_io.specs.Writing.{Writes};
ghost use Rattle.wc_report.specs.ReportText.{end_word, finish_front, end_line, start_line};

use crate::words::{end_name, kind_name};
use wc_io::{Failed, Piece, Sink, write_pieces};
use wc_model::{End, Kind, Text};

/// A start of a run.
pub fn write_start<K: Sink>(
    sink: &mut K,
    by: u32,
    kind: Kind,
    name: &Text,
    stamp: u64,
) -> Result<(), Failed>
    requires { (1 ≤ kind) × (kind ≤ 11) }
    ensures text { Writes (K.held sink.old) (K.held sink.new) result (start_line by kind name.now stamp) }
    ensures cause { HasCause (K.faults sink.old) (K.faults sink.new) result }
    ensures place { K.place sink.new ≡ K.place sink.old }
{
    write_pieces(
        sink,
        &[
            Piece::Bytes(b"start "),
            Piece::Decimal(by as u128),
            Piece::Bytes(b" "),
            Piece::Bytes(kind_name(kind.number()).as_bytes()),
            Piece::Bytes(b" "),
            Piece::Bytes(name.items()),
            Piece::Bytes(b" stamp "),
            Piece::Decimal(stamp as u128),
        ],
    )
}

fn write_finish_front<K: Sink>(
    sink: &mut K,
    by: u32,
    kind: Kind,
    name: &Text,
    stamp: u64,
) -> Result<(), Failed>
    requires { (1 ≤ kind) × (kind ≤ 11) }
    ensures text { Writes (K.held sink.old) (K.held sink.new) result (finish_front by kind name.now stamp) }
    ensures cause { HasCause (K.faults sink.old) (K.faults sink.new) result }
    ensures place { K.place sink.new ≡ K.place sink.old }
{
    write_pieces(
        sink,
        &[
            Piece::Bytes(b"finish "),
            Piece::Decimal(by as u128),
            Piece::Bytes(b" "),
            Piece::Bytes(kind_name(kind.number()).as_bytes()),
            Piece::Bytes(b" "),
            Piece::Bytes(name.items()),
            Piece::Bytes(b" stamp "),
            Piece::Decimal(stamp as u128),
        ],
    )
}

fn write_end<K: Sink>(sink: &mut K, end: End) -> Result<(), Failed>
    ensures text { Writes (K.held sink.old) (K.held sink.new) result (codes " " ++ end_word end) }
    ensures cause { HasCause (K.faults sink.old) (K.faults sink.new) result }
    ensures place { K.place sink.new ≡ K.place sink.old }
{
    write_pieces(
        sink,
        &[Piece::Bytes(b" "), Piece::Bytes(end_name(end).as_bytes())],
    )
}

/// The finish of a run.
pub fn write_finish<K: Sink>(
    sink: &mut K,
    by: u32,
    kind: Kind,
    name: &Text,
    stamp: u64,
    end: End,
) -> Result<(), Failed>
    requires { (1 ≤ kind) × (kind ≤ 11) }
    ensures text { Writes (K.held sink.old) (K.held sink.new) result (end_line by kind name.now stamp end) }
    ensures cause { HasCause (K.faults sink.old) (K.faults sink.new) result }
    ensures place { K.place sink.new ≡ K.place sink.old }
{
    match write_finish_front(sink, by, kind, name, stamp) {
        Ok(()) => write_end(sink, end),
        Err(Failed) => Err(Failed),
    }
}
