ghost use Rattle.std.specs.Prelude.{◌≡◌, ◌≤◌, ◌⊎◌, MatchBool};
ghost use Rattle.std.specs.Io.KnownBytes.{Appends};
ghost use Rattle.wc_io.specs.Causes.{Rose, HasCause};
ghost use Rattle.wc_io.specs.Writing.{AppendsPart, Writes};
ghost use Rattle.wcet.specs.Answers.{answer_of, line_of, status_of, unwritten, outcome_status, Finishes};

use crate::Status;
use crate::loading::Unloaded;
use wc_base::Fault;
use wc_io::{Failed, Piece, Sink, write_pieces};
use wc_model::Outcome;

/// What a command found out.
#[derive(Clone, Copy, Debug, PartialEq, Eq)]
pub enum Answer {
    Usage,
    ReadFault,
    Memory,
    Refused(Fault),
    Analysed(Outcome),
}

impl From<Unloaded> for Answer {
    ghost from_gives = { λ unloaded answer. answer ≡ answer_of unloaded };

    fn from(unloaded: Unloaded) -> Answer {
        match unloaded {
            Unloaded::ReadFault => Answer::ReadFault,
            Unloaded::Refused(fault) => Answer::Refused(fault),
            Unloaded::Memory => Answer::Memory,
        }
    }
}

fn write_answer<K: Sink>(out: &mut K, name: &str, answer: &Answer) -> Result<(), Failed>
    ensures text { Writes (K.held out.old) (K.held out.new) result (line_of name.now answer.now) }
    ensures cause { HasCause (K.faults out.old) (K.faults out.new) result }
    ensures place { K.place out.new ≡ K.place out.old }
{
    match *answer {
        Answer::Usage => write_pieces(out, &[Piece::Bytes(b"usage\n")]),
        Answer::ReadFault => write_pieces(out, &[Piece::Bytes(b"read fault\n")]),
        Answer::Memory | Answer::Analysed(Outcome::Memory) => write_pieces(
            out,
            &[Piece::Bytes(b"memory\n")],
        ),
        Answer::Refused(fault) | Answer::Analysed(Outcome::Fault(fault)) => {
            write_pieces(
                out,
                &[
                    Piece::Bytes(b"refused "),
                    Piece::Fault(fault),
                    Piece::Bytes(b"\n"),
                ],
            )
        }
        Answer::Analysed(Outcome::Bound(cycles)) => write_pieces(
            out,
            &[
                Piece::Bytes(b"bound "),
                Piece::Bytes(name.as_bytes()),
                Piece::Bytes(b" "),
                Piece::Decimal(cycles),
                Piece::Bytes(b"\n"),
            ],
        ),
    }
}

fn status(answer: &Answer, written: bool) -> Status
    ensures { MatchBool written (result ≡ status_of answer.now) (result ≡ unwritten (status_of answer.now)) }
{
    match (answer, written) {
        (Answer::Usage, _) => 2,
        (Answer::ReadFault, _) => 3,
        (Answer::Memory | Answer::Analysed(Outcome::Memory), _) => 5,
        (Answer::Refused(_), _) => 6,
        (Answer::Analysed(_), false) => 4,
        (Answer::Analysed(Outcome::Bound(_)), true) => 0,
        (Answer::Analysed(Outcome::Fault(_)), true) => 1,
    }
}

/// Prints the answer's line, and tells the status: 4 where a line of an outcome wasn't written.
pub fn finish<K: Sink>(out: &mut K, name: &str, answer: &Answer) -> Status
    ensures line { Finishes name.now answer.now (K.held out.old) (K.held out.new) (K.faults out.old) (K.faults out.new) result }
    ensures place { K.place out.new ≡ K.place out.old }
    ensures faults { K.faults out.old ≤ K.faults out.new }
{
    let written = write_answer(out, name, answer).is_ok();
    status(answer, written)
}
