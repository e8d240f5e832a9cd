ghost use Rattle.std.specs.Prelude.{◌≡◌};
ghost use Rattle.wc_io.specs.Causes.{HasCause};
ghost use Rattle.wc_io.specs.Writing.{Writes};
ghost use Rattle.wc_report.specs.ReportText.{answer_front, answer_line, outcome_words};

use wc_io::{Failed, Piece, Sink, write_pieces};
use wc_model::{Outcome, Text};

fn write_outcome<K: Sink>(sink: &mut K, outcome: Outcome) -> Result<(), Failed>
    ensures text { Writes (K.held sink.old) (K.held sink.new) result (outcome_words outcome) }
    ensures cause { HasCause (K.faults sink.old) (K.faults sink.new) result }
    ensures place { K.place sink.new ≡ K.place sink.old }
{
    match outcome {
        Outcome::Bound(cycles) => write_pieces(
            sink,
            &[Piece::Bytes(b"bound "), Piece::Decimal(cycles)],
        ),
        Outcome::Fault(fault) => write_pieces(
            sink,
            &[Piece::Bytes(b"fault "), Piece::Fault(fault)],
        ),
        Outcome::Memory => write_pieces(sink, &[Piece::Bytes(b"memory")]),
    }
}

fn write_answer_front<K: Sink>(sink: &mut K, by: u32, name: &Text, at: u64) -> Result<(), Failed>
    ensures text { Writes (K.held sink.old) (K.held sink.new) result (answer_front by name.now at) }
    ensures cause { HasCause (K.faults sink.old) (K.faults sink.new) result }
    ensures place { K.place sink.new ≡ K.place sink.old }
{
    write_pieces(
        sink,
        &[
            Piece::Bytes(b"answer "),
            Piece::Decimal(by as u128),
            Piece::Bytes(b" "),
            Piece::Bytes(name.items()),
            Piece::Bytes(b" at "),
            Piece::Decimal(at as u128),
            Piece::Bytes(b" "),
        ],
    )
}

/// The answer of an ask.
pub fn write_answer_entry<K: Sink>(
    sink: &mut K,
    by: u32,
    name: &Text,
    at: u64,
    outcome: Outcome,
) -> Result<(), Failed>
    ensures text { Writes (K.held sink.old) (K.held sink.new) result (answer_line by name.now at outcome) }
    ensures cause { HasCause (K.faults sink.old) (K.faults sink.new) result }
    ensures place { K.place sink.new ≡ K.place sink.old }
{
    match write_answer_front(sink, by, name, at) {
        Ok(()) => write_outcome(sink, outcome),
        Err(Failed) => Err(Failed),
    }
}
