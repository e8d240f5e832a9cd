ghost use Rattle.std.specs.Prelude.{◌≡◌, ◌++◌};
ghost use Rattle.wc_base.specs.FaultTexts.{fault_text, field_text, file_text, unbuilt_text};
ghost use Rattle.wc_io.specs.Tails.{tail_text};
ghost use Rattle.wc_io.specs.Writing.{WritesTo};

use crate::texts::{address, write_decimal};
use crate::{Failed, Sink, write_whole};
use wc_base::{Fault, FieldWord, FileWord, UnbuiltWord};

fn file_text(word: FileWord) -> &'static str
    ensures { result.now ≡ file_text word }
{
    match word {
        FileWord::Binary => "binary",
        FileWord::Hardware => "hardware",
        FileWord::Facts => "facts",
    }
}

/// The name of a field of the hardware file.
pub fn field_text(word: FieldWord) -> &'static str
    ensures { result.now ≡ field_text word }
{
    match word {
        FieldWord::Root => "root",
        FieldWord::Cycles => "cycles",
        FieldWord::Alu => "alu",
        FieldWord::Mul => "mul",
        FieldWord::Div => "div",
        FieldWord::Load => "load",
        FieldWord::Store => "store",
        FieldWord::Multi => "multi",
        FieldWord::Branch => "branch",
        FieldWord::System => "system",
        FieldWord::Taken => "taken",
        FieldWord::PerRegister => "per_register",
        FieldWord::Icache => "icache",
        FieldWord::Sets => "sets",
        FieldWord::Ways => "ways",
        FieldWord::Line => "line",
        FieldWord::Hit => "hit",
        FieldWord::Miss => "miss",
        FieldWord::Start => "start",
    }
}

fn unbuilt_text(word: UnbuiltWord) -> &'static str
    ensures { result.now ≡ unbuilt_text word }
{
    match word {
        UnbuiltWord::Binary => "binary",
        UnbuiltWord::Facts => "facts",
        UnbuiltWord::Icache => "icache",
        UnbuiltWord::Code => "code",
    }
}

/// The place that stands behind a fault's number and name.
#[derive(Clone, Copy)]
enum Tail {
    Nothing,
    Number(u64),
    Address(u32),
    Name(&'static str),
}

fn parts(fault: &Fault) -> (&'static str, Tail)
    ensures { result.0.now ++ tail_text result.1 ≡ fault_text fault.now }
{
    match fault {
        Fault::Truncated(offset) => ("1 Truncated offset ", Tail::Number(*offset)),
        Fault::NotArm(offset) => ("2 NotArm offset ", Tail::Number(*offset)),
        Fault::BadTable(offset) => ("3 BadTable offset ", Tail::Number(*offset)),
        Fault::NoSymbol => ("4 NoSymbol", Tail::Nothing),
        Fault::Thumb(at) => ("5 Thumb ", Tail::Address(*at)),
        Fault::LongFile(word) => ("6 LongFile ", Tail::Name(file_text(*word))),
        Fault::BadJson => ("10 BadJson", Tail::Nothing),
        Fault::BadField(word) => ("11 BadField ", Tail::Name(field_text(*word))),
        Fault::BadFact(line) => ("12 BadFact line ", Tail::Number(*line)),
        Fault::UnknownLabel(line) => ("13 UnknownLabel line ", Tail::Number(*line)),
        Fault::TooLarge => ("20 TooLarge", Tail::Nothing),
        Fault::OutOfText(at) => ("21 OutOfText ", Tail::Address(*at)),
        Fault::UnknownInstruction(at) => ("22 UnknownInstruction ", Tail::Address(*at)),
        Fault::Unresolved(at) => ("23 Unresolved ", Tail::Address(*at)),
        Fault::Recursion(at) => ("24 Recursion ", Tail::Address(*at)),
        Fault::NoExit => ("25 NoExit", Tail::Nothing),
        Fault::Irreducible(at) => ("30 Irreducible ", Tail::Address(*at)),
        Fault::Unbounded(at) => ("31 Unbounded ", Tail::Address(*at)),
        Fault::NumberLimit => ("40 NumberLimit", Tail::Nothing),
        Fault::SystemLimit => ("41 SystemLimit", Tail::Nothing),
        Fault::PivotLimit => ("42 PivotLimit", Tail::Nothing),
        Fault::NoPath => ("43 NoPath", Tail::Nothing),
        Fault::BadCommand => ("50 BadCommand", Tail::Nothing),
        Fault::LongLine => ("51 LongLine", Tail::Nothing),
        Fault::NoFact => ("52 NoFact", Tail::Nothing),
        Fault::TooMuch => ("53 TooMuch", Tail::Nothing),
        Fault::Unbuilt(word) => ("90 Unbuilt ", Tail::Name(unbuilt_text(*word))),
    }
}

fn write_tail<K: Sink>(sink: &mut K, tail: Tail) -> Result<(), Failed>
    ensures { WritesTo K.Sink sink.old sink.new result (tail_text tail) }
{
    match tail {
        Tail::Nothing => write_whole(sink, b""),
        Tail::Number(number) => write_decimal(sink, number as u128),
        Tail::Address(at) => write_whole(sink, &address(at)),
        Tail::Name(name) => write_whole(sink, name.as_bytes()),
    }
}

/// Appends the text of a fault. After `Failed` a shorter prefix of it was appended.
pub fn write_fault<K: Sink>(sink: &mut K, fault: &Fault) -> Result<(), Failed>
    ensures { WritesTo K.Sink sink.old sink.new result (fault_text fault.now) }
{
    let (head, tail) = parts(fault);
    match write_whole(sink, head.as_bytes()) {
        Ok(()) => write_tail(sink, tail),
        Err(Failed) => Err(Failed),
    }
}
