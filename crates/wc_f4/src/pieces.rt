ghost use Rattle.std.specs.Prelude.{◌≡◌, ◌<◌, ◌≤◌, bytes_eq, true, length, slice_index, Some};
ghost use Rattle.std.specs.Str.Parse.{IsNumeral};
ghost use Rattle.wc_f4.specs.Bytes.{IsInside, is_blank, is_digit, is_letter};
ghost use Rattle.wc_f4.specs.Tokens.{at_most_at, comment_at, mark_of, number_at, number_of, piece_at, quoted_at, word_at, word_of as word_of_bytes, wrong};
ghost use Rattle.wc_f4.specs.Views.{piece_of, seen};

use crate::runs::{Kind, closing_length, has_at, is_of, run_length};
use crate::tokens::{Mark, Token, Word};
use wc_base::read_number;

/// What stands at the front of a text: its token, unless it is a blank or a comment, and how many bytes it takes.
#[derive(Clone, Copy)]
pub struct Piece<'a> {
    pub token: Option<Token<'a>>,
    pub length: usize,
}

fn is_word(word: &[u8], text: &str) -> bool
    ensures { result ≡ bytes_eq word.now text.now }
{
    word == text.as_bytes()
}

fn word_of(word: &[u8]) -> Word
    ensures { result ≡ word_of_bytes word.now }
{
    if is_word(word, "loop") {
        Word::Loop
    } else if is_word(word, "multibranch") {
        Word::Multibranch
    } else if is_word(word, "multicall") {
        Word::Multicall
    } else if is_word(word, "noreturn") {
        Word::Noreturn
    } else if is_word(word, "checksum") {
        Word::Checksum
    } else if is_word(word, "limit") {
        Word::Limit
    } else if is_word(word, "to") {
        Word::To
    } else if is_word(word, "in") {
        Word::In
    } else {
        Word::Other
    }
}

fn mark_of<'a>(byte: u8) -> Token<'a>
    ensures { seen result ≡ mark_of byte }
{
    match byte {
        b';' => Token::Mark(Mark::Semicolon),
        b',' => Token::Mark(Mark::Comma),
        b'?' => Token::Mark(Mark::Question),
        b'+' => Token::Mark(Mark::Plus),
        b'-' => Token::Mark(Mark::Minus),
        b'*' => Token::Mark(Mark::Star),
        b'[' => Token::Mark(Mark::Open),
        b']' => Token::Mark(Mark::Close),
        _ => Token::Wrong,
    }
}

/// The number that the digits stand for, if it is below 2^32.
fn number_of<'a>(digits: &[u8], base: u32) -> Token<'a>
    requires some { 2 ≤ base }
    requires few { base ≤ 36 }
    requires digits { IsNumeral base digits.now }
    ensures { seen result ≡ number_of base digits.now }
{
    match read_number(digits, base, u32::MAX as u64) {
        Some(number) => Token::Number(number as u32),
        None => Token::Wrong,
    }
}

fn number_at(rest: &[u8]) -> Piece<'_>
    requires some { 0 < length rest.now }
    requires digit { is_digit (slice_index rest.now 0) ≡ true }
    ensures value { piece_of result ≡ number_at rest.now }
    ensures inside { IsInside result.length rest.now }
{
    if has_at(rest, 0, b'0') && has_at(rest, 1, b'x') {
        let digits = run_length(&rest[2..], Kind::Hexadecimal);
        if digits > 0 {
            return Piece {
                token: Some(number_of(&rest[2..2 + digits], 16)),
                length: 2 + digits,
            };
        }
    }
    let digits = run_length(rest, Kind::Decimal);
    Piece {
        token: Some(number_of(&rest[..digits], 10)),
        length: digits,
    }
}

fn wrong<'a>() -> Piece<'a>
    ensures { piece_of result ≡ (Some wrong, 1) }
{
    Piece {
        token: Some(Token::Wrong),
        length: 1,
    }
}

fn quoted_at(rest: &[u8]) -> Piece<'_>
    requires { 0 < length rest.now }
    ensures value { piece_of result ≡ quoted_at rest.now }
    ensures inside { IsInside result.length rest.now }
{
    let length = run_length(&rest[1..], Kind::Quoted);
    if !has_at(rest, length + 1, b'"') {
        return wrong();
    }
    Piece {
        token: Some(Token::Quoted(&rest[1..length + 1])),
        length: length + 2,
    }
}

fn comment_at(rest: &[u8]) -> Piece<'_>
    requires some { 0 < length rest.now }
    requires slash { slice_index rest.now 0 ≡ 47 }
    ensures value { piece_of result ≡ comment_at rest.now }
    ensures inside { IsInside result.length rest.now }
{
    if has_at(rest, 1, b'/') {
        return Piece {
            token: None,
            length: run_length(rest, Kind::Line),
        };
    }
    if !has_at(rest, 1, b'*') {
        return wrong();
    }
    match closing_length(&rest[2..]) {
        Some(length) => Piece {
            token: None,
            length: 2 + length,
        },
        None => wrong(),
    }
}

fn at_most_at(rest: &[u8]) -> Piece<'_>
    requires { 0 < length rest.now }
    ensures value { piece_of result ≡ at_most_at rest.now }
    ensures inside { IsInside result.length rest.now }
{
    if !has_at(rest, 1, b'=') {
        return wrong();
    }
    Piece {
        token: Some(Token::Mark(Mark::AtMost)),
        length: 2,
    }
}

fn is_blank(byte: u8) -> bool
    ensures { result ≡ is_blank byte }
{
    byte == b' ' || byte == b'\t' || byte == b'\r' || byte == b'\n'
}

fn word_at(rest: &[u8]) -> Piece<'_>
    requires some { 0 < length rest.now }
    requires letter { is_letter (slice_index rest.now 0) ≡ true }
    ensures value { piece_of result ≡ word_at rest.now }
    ensures inside { IsInside result.length rest.now }
{
    let length = run_length(rest, Kind::Letter);
    Piece {
        token: Some(Token::Word(word_of(&rest[..length]))),
        length,
    }
}

/// What stands at the front of a text that isn't empty.
#[tactic(auto, unfolding(crate::specs::Tokens::piece_at))]
pub fn piece_at(rest: &[u8]) -> Piece<'_>
    requires { 0 < length rest.now }
    ensures value { piece_of result ≡ piece_at (slice_index rest.now 0) rest.now }
    ensures inside { IsInside result.length rest.now }
{
    let first = rest[0];
    if is_blank(first) {
        Piece {
            token: None,
            length: 1,
        }
    } else if is_of(Kind::Letter, first) {
        word_at(rest)
    } else if is_of(Kind::Decimal, first) {
        number_at(rest)
    } else if first == b'"' {
        quoted_at(rest)
    } else if first == b'/' {
        comment_at(rest)
    } else if first == b'<' {
        at_most_at(rest)
    } else {
        Piece {
            token: Some(mark_of(first)),
            length: 1,
        }
    }
}
