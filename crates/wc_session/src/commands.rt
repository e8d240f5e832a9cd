ghost use Rattle.std.specs.Prelude.{◌≡◌, ◌≢◌, ℕ, not, IfOk, List, ◌++◌, MatchOption};
ghost use Rattle.std.specs.List.{list_all};
ghost use Rattle.wc_session.specs.Commands.{is_blank, IsNumber, Reads, ReadsName};

use std::alloc::Global;
use wc_base::{Fault, Trouble, read_decimal};
use wc_f4::read_one;
use wc_hw::read_hardware;
use wc_model::{Fact, Hardware, Image, Text};

/// What a line of a script asks for.
#[derive(Debug, Drop)]
pub enum Command {
    Add(Fact),
    /// Drops the fact with a number.
    Drop(u64),
    Hardware(Hardware),
    /// Asks for the bound of the function with a name.
    Bound(Text),
    List,
    Quit,
    /// A line of spaces and tabs alone, or of nothing.
    Blank,
}

fn is_blank(byte: u8) -> bool
    ensures { result ≡ is_blank byte }
{
    byte == b' ' || byte == b'\t'
}

fn is_blank_line(line: &[u8]) -> bool
    ensures { result ≡ list_all is_blank line.now }
{
    line.iter().all(|byte| is_blank(*byte))
}

fn has_no_blank(name: &[u8]) -> bool
    ensures { result ≡ list_all (λ b. not (is_blank b)) name.now }
{
    name.iter().all(|byte| !is_blank(*byte))
}

/// The bytes after a word at the front of a line.
fn after<'a>(word: &[u8], line: &'a [u8]) -> Option<&'a [u8]>
    ensures { MatchOption result ((rest : List ℕ) → line.now ≢ word.now ++ rest) (λ rest. line.now ≡ word.now ++ rest.now) }
{
    line.strip_prefix(word)
}

fn read_name(alloc: Global, bytes: &[u8]) -> Result<Text, Trouble>
    ensures { ReadsName bytes.now result }
{
    if bytes.is_empty() || !has_no_blank(bytes) {
        return Err(Trouble::Fault(Fault::BadCommand));
    }
    match bytes.to_vec(alloc) {
        Ok(name) => Ok(Text::new(name)),
        Err(error) => Err(Trouble::Memory(error)),
    }
}

fn read_number(digits: &[u8]) -> Option<u64>
    ensures { MatchOption result ((number : ℕ) → IsNumber digits.now number → ⊥) (IsNumber digits.now) }
{
    read_decimal(digits, u64::MAX)
}

/// The command that a line states. A line of no known form is refused with `BadCommand`, and one that states a fact or
/// a hardware with the fault of its reader.
pub fn read_command(alloc: Global, line: &[u8], image: &Image) -> Result<Command, Trouble>
    ensures { Reads image.now line.now result }
{
    if is_blank_line(line) {
        return Ok(Command::Blank);
    }
    if line == b"quit".as_slice() {
        return Ok(Command::Quit);
    }
    if line == b"list".as_slice() {
        return Ok(Command::List);
    }
    if let Some(name) = after(b"bound ", line) {
        return match read_name(alloc, name) {
            Ok(name) => Ok(Command::Bound(name)),
            Err(trouble) => Err(trouble),
        };
    }
    if let Some(json) = after(b"hardware ", line) {
        return match read_hardware(alloc, json) {
            Ok(hardware) => Ok(Command::Hardware(hardware)),
            Err(trouble) => Err(trouble),
        };
    }
    if let Some(text) = after(b"add ", line) {
        return match read_one(alloc, text, image) {
            Ok(fact) => Ok(Command::Add(fact)),
            Err(trouble) => Err(trouble),
        };
    }
    if let Some(digits) = after(b"drop ", line) {
        return match read_number(digits) {
            Some(number) => Ok(Command::Drop(number)),
            None => Err(Trouble::Fault(Fault::BadCommand)),
        };
    }
    Err(Trouble::Fault(Fault::BadCommand))
}
