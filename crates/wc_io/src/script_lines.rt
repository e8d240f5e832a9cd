ghost use Rattle.std.specs.Prelude.{◌≡◌, ◌+◌, ◌≤◌, [], false, not, if◌then◌else◌, IsFalse, MatchResult, IfSome, option_map};
ghost use Rattle.wc_io.specs.Causes.{Rose};
ghost use Rattle.wc_io.specs.Ahead.{to_come};
ghost use Rattle.wc_io.specs.Lines.{Gives, IsLineAfter, goes_on, unread_script};
ghost use Rattle.wc_io.specs.Parts.{Finds};

use crate::line_buffer::{LineBuffer, PartEnd, find_feed};
use crate::read_ahead::ReadAhead;
use crate::{Failed, Source};
use std::alloc::{AllocError, Global};
use std::marker::Model;

/// What the next line of a script is.
#[derive(Clone, Copy, Debug, PartialEq, Eq)]
pub enum LineRead {
    /// A line, which `line` then gives.
    Line,
    /// A line of more than 4,096 bytes before its LF or the end, which is skipped.
    TooLong,
    /// Bytes beyond 10,000 lines or beyond 50,331,648 bytes.
    TooMuch,
    End,
    ReadFault,
}

/// Reads the bytes of a line up to its LF, the end, or more of them than there is room for.
fn collect<S: Source>(ahead: &mut ReadAhead<S>, line: &mut LineBuffer, room: u64) -> PartEnd
    requires room { room ≤ 50331648 }
    requires empty { line.old.part ≡ [] }
    requires none { line.old.count ≡ 0 }
    ensures found { Finds result room (to_come ahead.old) (to_come ahead.new) line.new }
    ensures kept { line.new.line ≡ line.old.line }
    ensures fault { result ≡ PartEnd.Failed → Rose ahead.old.faults ahead.new.faults }
    ensures later { ahead.old.faults ≤ ahead.new.faults }
    ensures place { ahead.new.place ≡ ahead.old.place }
{
    loop {
        let count = match ahead.fill() {
            Ok(count) => count,
            Err(Failed) => return PartEnd::Failed,
        };
        if count == 0 {
            return PartEnd::End;
        }
        let piece = ahead.unread();
        match find_feed(piece) {
            Some(i) => {
                if i as u64 >= room - line.count() {
                    return PartEnd::TooMuch;
                }
                line.append(&piece[..i]);
                ahead.skip(i + 1);
                return PartEnd::Feed;
            }
            None => {
                if count as u64 > room - line.count() {
                    return PartEnd::TooMuch;
                }
                line.append(piece);
                ahead.skip(count);
            }
        }
    }
}

/// The most lines of a script.
const MAX_LINES: u32 = 10_000;

/// The most bytes of a script.
const MAX_BYTES: u64 = 50_331_648;

/// The lines of a source, each without its LF and without a CR before it.
#[derive(Drop)]
pub struct Lines<S: Source> {
    ahead: ReadAhead<S>,
    line: LineBuffer,
    count: u32,
    bytes: u64,
    ended: bool,
}

impl<S: Source> Model for Lines<S> {
    ghost use Rattle.std.specs.Prelude.{◌≤◌, option_map};
    ghost use Rattle.wc_io.specs.Ahead.{to_come};
    ghost use Rattle.wc_io.specs.Lines.{Script, raw_lines, results_after};

    ghost Value = { Script };

    ghost view = { λ s. record {
      rest = option_map (λ bytes. results_after s.count s.bytes (raw_lines bytes)) (to_come s.ahead);
      count = s.count;
      line = s.line.line;
      ended = s.ended;
      place = s.ahead.place;
      faults = s.ahead.faults;
    } };

    ghost invariant = { λ s. (s.count ≤ 10000) × (s.bytes ≤ 50331648) };
}

impl<S: Source> Lines<S> {
    /// Takes all the room that reading takes.
    pub fn new(alloc: Global, source: S) -> Result<Lines<S>, (S, AllocError)>
        ensures { MatchResult result
            (λ s. s ≡ unread_script (S.left source) (S.place source) (S.faults source))
            (λ e. e.0 ≡ source) }
    {
        match LineBuffer::new(alloc) {
            Ok(line) => Ok(Lines {
                ahead: ReadAhead::new(source),
                line,
                count: 0,
                bytes: 0,
                ended: false,
            }),
            Err(error) => Err((source, error)),
        }
    }

    /// Reads the next line. After `TooMuch`, `End` or `ReadFault` it isn't called again.
    pub fn next_line(&mut self) -> LineRead
        requires { IsFalse self.old.ended }
        ensures next { IfSome self.old.rest (λ results. Gives result results self.new) }
        ensures line { IsLineAfter result self.old.line self.new.line }
        ensures count { self.new.count ≡ (if goes_on result then self.old.count + 1 else self.old.count) }
        ensures few { self.new.count ≤ 10000 }
        ensures ended { self.new.ended ≡ not (goes_on result) }
        ensures fault { result ≡ LineRead.ReadFault → Rose self.old.faults self.new.faults }
        ensures later { self.old.faults ≤ self.new.faults }
        ensures place { self.new.place ≡ self.old.place }
    {
        let room = if self.count == MAX_LINES {
            0
        } else {
            MAX_BYTES - self.bytes
        };
        self.line.clear();
        match collect(&mut self.ahead, &mut self.line, room) {
            PartEnd::Feed => {
                self.count += 1;
                self.bytes += self.line.count() + 1;
                self.line.give(true)
            }
            PartEnd::End if self.line.count() > 0 => {
                self.count += 1;
                self.bytes += self.line.count();
                self.line.give(false)
            }
            PartEnd::End => {
                self.ended = true;
                LineRead::End
            }
            PartEnd::TooMuch => {
                self.ended = true;
                LineRead::TooMuch
            }
            PartEnd::Failed => {
                self.ended = true;
                LineRead::ReadFault
            }
        }
    }

    /// The bytes of the last line given, and no bytes before the first one.
    pub fn line(&self) -> &[u8]
        ensures { result.now ≡ self.now.line }
    {
        self.line.line()
    }

    pub fn into_source(self) -> S
        ensures place { S.place result ≡ self.place }
        ensures faults { S.faults result ≡ self.faults }
    {
        let Lines {
            ahead,
            line: _,
            count: _,
            bytes: _,
            ended: _,
        } = self;
        ahead.into_source()
    }
}
