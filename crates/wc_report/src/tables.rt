ghost use Rattle.std.specs.Prelude.{◌≡◌, ◌≤◌, ◌++◌, codes, decimal, length, All};
ghost use Rattle.wc_io.specs.Causes.{HasCause};
ghost use Rattle.wc_io.specs.Writing.{Writes};
ghost use Rattle.wc_report.specs.ReportText.{IsOfKinds, entry_line, lines_from, run_line, session_line};
ghost use Rattle.wc_report.specs.ReportText.{count_text, history_text, printed, tables_text};

use crate::entries::write_entry_line;
use crate::words::{ended_name, kind_name};
use wc_io::{Failed, Piece, Sink, write_pieces};
use wc_model::{Ended, Entry};

fn write_entries<K: Sink>(sink: &mut K, history: &[Entry]) -> Result<(), Failed>
    requires { All IsOfKinds history.now }
    ensures text { Writes (K.held sink.old) (K.held sink.new) result (lines_from entry_line 1 history.now) }
    ensures cause { HasCause (K.faults sink.old) (K.faults sink.new) result }
    ensures place { K.place sink.new ≡ K.place sink.old }
{
    let mut place = 0u64;
    for entry in history {
        place += 1;
        match write_entry_line(sink, place, entry) {
            Ok(()) => {}
            Err(Failed) => return Err(Failed),
        }
    }
    Ok(())
}

fn write_run_line<K: Sink>(sink: &mut K, kind: u8, runs: u64) -> Result<(), Failed>
    requires { (1 ≤ kind) × (kind ≤ 11) }
    ensures text { Writes (K.held sink.old) (K.held sink.new) result (run_line kind runs) }
    ensures cause { HasCause (K.faults sink.old) (K.faults sink.new) result }
    ensures place { K.place sink.new ≡ K.place sink.old }
{
    write_pieces(
        sink,
        &[
            Piece::Bytes(b"runs "),
            Piece::Bytes(kind_name(kind).as_bytes()),
            Piece::Bytes(b" "),
            Piece::Decimal(runs as u128),
            Piece::Bytes(b"\n"),
        ],
    )
}

fn write_runs<K: Sink>(sink: &mut K, runs: &[u64]) -> Result<(), Failed>
    requires { length runs.now ≡ 11 }
    ensures text { Writes (K.held sink.old) (K.held sink.new) result (lines_from run_line 1 runs.now) }
    ensures cause { HasCause (K.faults sink.old) (K.faults sink.new) result }
    ensures place { K.place sink.new ≡ K.place sink.old }
{
    let mut kind = 0u8;
    for count in runs {
        kind += 1;
        match write_run_line(sink, kind, *count) {
            Ok(()) => {}
            Err(Failed) => return Err(Failed),
        }
    }
    Ok(())
}

fn write_session_line<K: Sink>(sink: &mut K, session: u64, ended: Ended) -> Result<(), Failed>
    ensures text { Writes (K.held sink.old) (K.held sink.new) result (session_line session ended) }
    ensures cause { HasCause (K.faults sink.old) (K.faults sink.new) result }
    ensures place { K.place sink.new ≡ K.place sink.old }
{
    write_pieces(
        sink,
        &[
            Piece::Bytes(b"session "),
            Piece::Decimal(session as u128),
            Piece::Bytes(b" "),
            Piece::Bytes(ended_name(ended).as_bytes()),
            Piece::Bytes(b"\n"),
        ],
    )
}

fn write_sessions<K: Sink>(sink: &mut K, ends: &[Ended]) -> Result<(), Failed>
    ensures text { Writes (K.held sink.old) (K.held sink.new) result (lines_from session_line 1 ends.now) }
    ensures cause { HasCause (K.faults sink.old) (K.faults sink.new) result }
    ensures place { K.place sink.new ≡ K.place sink.old }
{
    let mut session = 0u64;
    for ended in ends {
        session += 1;
        match write_session_line(sink, session, *ended) {
            Ok(()) => {}
            Err(Failed) => return Err(Failed),
        }
    }
    Ok(())
}

fn write_tables<K: Sink>(sink: &mut K, runs: &[u64], ends: &[Ended]) -> Result<(), Failed>
    requires { length runs.now ≡ 11 }
    ensures text { Writes (K.held sink.old) (K.held sink.new) result (tables_text runs.now ends.now) }
    ensures cause { HasCause (K.faults sink.old) (K.faults sink.new) result }
    ensures place { K.place sink.new ≡ K.place sink.old }
{
    match write_runs(sink, runs) {
        Ok(()) => write_sessions(sink, ends),
        Err(Failed) => Err(Failed),
    }
}

fn write_count<K: Sink>(sink: &mut K, entries: usize) -> Result<(), Failed>
    ensures text { Writes (K.held sink.old) (K.held sink.new) result (count_text entries) }
    ensures cause { HasCause (K.faults sink.old) (K.faults sink.new) result }
    ensures place { K.place sink.new ≡ K.place sink.old }
{
    write_pieces(
        sink,
        &[
            Piece::Bytes(b"history "),
            Piece::Decimal(entries as u128),
            Piece::Bytes(b"\n"),
        ],
    )
}

fn write_history<K: Sink>(sink: &mut K, history: &[Entry]) -> Result<(), Failed>
    requires { All IsOfKinds history.now }
    ensures text { Writes (K.held sink.old) (K.held sink.new) result (history_text history.now) }
    ensures cause { HasCause (K.faults sink.old) (K.faults sink.new) result }
    ensures place { K.place sink.new ≡ K.place sink.old }
{
    match write_count(sink, history.len()) {
        Ok(()) => write_entries(sink, history),
        Err(Failed) => Err(Failed),
    }
}

/// Prints the report: the entries of the history, the runs of the eleven kinds, and how each session ended.
/// It takes no memory.
pub fn write_report<K: Sink>(
    sink: &mut K,
    history: &[Entry],
    runs: &[u64],
    ends: &[Ended],
) -> Result<(), Failed>
    requires kinds { All IsOfKinds history.now }
    requires runs { length runs.now ≡ 11 }
    ensures text { Writes (K.held sink.old) (K.held sink.new) result (printed history.now runs.now ends.now) }
    ensures cause { HasCause (K.faults sink.old) (K.faults sink.new) result }
    ensures place { K.place sink.new ≡ K.place sink.old }
{
    match write_history(sink, history) {
        Ok(()) => write_tables(sink, runs, ends),
        Err(Failed) => Err(Failed),
    }
}
