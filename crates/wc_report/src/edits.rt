ghost use Rattle.std.specs.Prelude.{◌≡◌, ◌++◌, codes};
ghost use Rattle.wc_f4.specs.FactText.{fact_text};
ghost use Rattle.wc_io.specs.Causes.{HasCause};
ghost use Rattle.wc_io.specs.Writing.{Writes};
ghost use Rattle.wc_report.specs.ReportText.{edit_front, edit_text, edit_line, hardware_words};

use wc_f4::write_fact;
use wc_hw::write_hardware;
use wc_io::{Failed, Piece, Sink, write_pieces, write_whole};
use wc_model::{Edit, Fact, Hardware};

fn write_added<K: Sink>(sink: &mut K, fact: &Fact) -> Result<(), Failed>
    ensures text { Writes (K.held sink.old) (K.held sink.new) result (codes "add " ++ fact_text fact.now) }
    ensures cause { HasCause (K.faults sink.old) (K.faults sink.new) result }
    ensures place { K.place sink.new ≡ K.place sink.old }
{
    match write_whole(sink, b"add ") {
        Ok(()) => write_fact(sink, fact),
        Err(Failed) => Err(Failed),
    }
}

/// The hardware behind its word.
pub fn write_timing<K: Sink>(sink: &mut K, hardware: &Hardware) -> Result<(), Failed>
    ensures text { Writes (K.held sink.old) (K.held sink.new) result (hardware_words hardware.now) }
    ensures cause { HasCause (K.faults sink.old) (K.faults sink.new) result }
    ensures place { K.place sink.new ≡ K.place sink.old }
{
    match write_whole(sink, b"hardware ") {
        Ok(()) => write_hardware(sink, hardware),
        Err(Failed) => Err(Failed),
    }
}

fn write_edit<K: Sink>(sink: &mut K, edit: &Edit) -> Result<(), Failed>
    ensures text { Writes (K.held sink.old) (K.held sink.new) result (edit_text edit.now) }
    ensures cause { HasCause (K.faults sink.old) (K.faults sink.new) result }
    ensures place { K.place sink.new ≡ K.place sink.old }
{
    match edit {
        Edit::Add(fact) => write_added(sink, fact),
        Edit::Drop(number) => write_pieces(
            sink,
            &[Piece::Bytes(b"drop "), Piece::Decimal(*number as u128)],
        ),
        Edit::Hardware(hardware) => write_timing(sink, hardware),
    }
}

fn write_edit_front<K: Sink>(sink: &mut K, by: u32, count: u64) -> Result<(), Failed>
    ensures text { Writes (K.held sink.old) (K.held sink.new) result (edit_front by count) }
    ensures cause { HasCause (K.faults sink.old) (K.faults sink.new) result }
    ensures place { K.place sink.new ≡ K.place sink.old }
{
    write_pieces(
        sink,
        &[
            Piece::Bytes(b"edit "),
            Piece::Decimal(by as u128),
            Piece::Bytes(b" "),
            Piece::Decimal(count as u128),
            Piece::Bytes(b" "),
        ],
    )
}

/// An accepted edit with its session and its count.
pub fn write_edit_entry<K: Sink>(
    sink: &mut K,
    by: u32,
    count: u64,
    edit: &Edit,
) -> Result<(), Failed>
    ensures text { Writes (K.held sink.old) (K.held sink.new) result (edit_line by count edit.now) }
    ensures cause { HasCause (K.faults sink.old) (K.faults sink.new) result }
    ensures place { K.place sink.new ≡ K.place sink.old }
{
    match write_edit_front(sink, by, count) {
        Ok(()) => write_edit(sink, edit),
        Err(Failed) => Err(Failed),
    }
}
