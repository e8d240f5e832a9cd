ghost use Rattle.std.specs.Prelude.{◌≡◌, ◌<◌, decimal, flat_map};
ghost use Rattle.wc_base.specs.FaultTexts.{address, hex_digit};
ghost use Rattle.wc_io.specs.Texts.{text_of};
ghost use Rattle.wc_io.specs.Writing.{WritesTo};

use crate::fault_texts::write_fault;
use crate::{Failed, Sink, write_whole};
use itoa::Buffer;
use wc_base::Fault;

/// A part of a line: bytes, a decimal number, `0x` and eight hexadecimal digits, or the text of a fault.
#[derive(Clone, Copy)]
pub enum Piece<'a> {
    Bytes(&'a [u8]),
    Decimal(u128),
    Address(u32),
    Fault(Fault),
}

/// One small hexadecimal digit.
fn hex_digit(digit: u32) -> u8
    requires { digit < 16 }
    ensures { result ≡ hex_digit digit }
{
    if digit < 10 {
        digit as u8 + b'0'
    } else {
        digit as u8 - 10 + b'a'
    }
}

/// `0x` and eight small hexadecimal digits.
pub fn address(at: u32) -> [u8; 10]
    ensures { result ≡ address at }
{
    [
        b'0',
        b'x',
        hex_digit(at >> 28),
        hex_digit((at >> 24) % 16),
        hex_digit((at >> 20) % 16),
        hex_digit((at >> 16) % 16),
        hex_digit((at >> 12) % 16),
        hex_digit((at >> 8) % 16),
        hex_digit((at >> 4) % 16),
        hex_digit(at % 16),
    ]
}

/// Appends a decimal number. After `Failed` a shorter prefix of its digits was appended.
pub fn write_decimal<K: Sink>(sink: &mut K, number: u128) -> Result<(), Failed>
    ensures { WritesTo K.Sink sink.old sink.new result (decimal number) }
{
    let mut digits = Buffer::new();
    write_whole(sink, digits.format(number).as_bytes())
}

fn write_piece<K: Sink>(sink: &mut K, piece: &Piece) -> Result<(), Failed>
    ensures { WritesTo K.Sink sink.old sink.new result (text_of piece.now) }
{
    match piece {
        Piece::Bytes(bytes) => write_whole(sink, bytes),
        Piece::Decimal(number) => write_decimal(sink, *number),
        Piece::Address(at) => write_whole(sink, &address(*at)),
        Piece::Fault(fault) => write_fault(sink, fault),
    }
}

/// Appends a text given in pieces. After `Failed` a prefix of it was appended, which is shorter than the text.
pub fn write_pieces<K: Sink>(sink: &mut K, pieces: &[Piece]) -> Result<(), Failed>
    ensures { WritesTo K.Sink sink.old sink.new result (flat_map text_of pieces.now) }
{
    for piece in pieces {
        match write_piece(sink, piece) {
            Ok(()) => {}
            Err(Failed) => return Err(Failed),
        }
    }
    Ok(())
}
