ghost use Rattle.std.specs.Prelude.{◌≡◌, ◌≢◌, ◌<◌, ◌≤◌, ◌↔◌, ◌⊎◌, ℕ, List, [], ◌∷◌, All, codes, map, string_bytes, true, false};
ghost use Rattle.std.specs.Io.KnownBytes.{Appends};
ghost use Rattle.wc_base.specs.declared.faults.Fault.{Fault as FaultCode};
ghost use Rattle.wc_io.specs.Causes.{Rose};
ghost use Rattle.wc_io.specs.Rows.{failed_count};
ghost use Rattle.wc_io.specs.Writing.{AppendsPart};
ghost use Rattle.wc_model.specs.declared.entries.Ended.{Ended as EndedOf};
ghost use Rattle.wcet.specs.Answers.{Shows, unwritten};
ghost use Rattle.wcet.specs.Files.{Holds};
ghost use Rattle.wc_report.specs.ReportText.{IsOfKinds, printed as report_text};
ghost use Rattle.wcet.specs.ServeCall.{AreKept, HasFaultyFile, HasSoundFiles, IsDone, IsHeadline, IsUnserved, KeepsFiles, OpensInOrder, RefusesFile, Reports, RunsLoaded, Serves, ShowsReport, ended_status, unserved_line, unserved_status};
ghost use Rattle.wcet.specs.Starts.{bound_runs};
ghost use Rattle.wcet.specs.Words.{IsFaultyServe, paths_in};

use crate::Status;
use crate::answers::{Answer, finish};
use crate::loading::{Loaded, Unloaded, load};
use crate::opening::{Opened, Unopened, give_back, open};
use crate::running::{Ran, run_shipped};
use crate::words::{ServeCall, serve_call};
use std::alloc::Global;
use std::sync::Wait;
use std::thread::Threads;
use wc_io::{Failed, House, Sink, write_whole};
use wc_model::{Ended, Entry};
use wc_report::write_report;

/// What is printed of a session: the history, the runs of the work of the bound, and how it ended.
#[derive(Drop)]
pub struct Served {
    pub history: Vec<Entry>,
    pub runs: u64,
    pub ended: Ended,
}

/// Why no session was served.
#[derive(Clone, Copy)]
pub enum Unserved {
    Unloaded(Unloaded),
    WriteFault,
}

impl From<Unopened> for Unserved {
    ghost use Rattle.wcet.specs.ServeCall.{unserved_by};

    ghost from_gives = { λ unopened unserved. unserved ≡ unserved_by unopened };

    fn from(unopened: Unopened) -> Unserved {
        match unopened {
            Unopened::ReadFault => Unserved::Unloaded(Unloaded::ReadFault),
            Unopened::WriteFault => Unserved::WriteFault,
            Unopened::Memory => Unserved::Unloaded(Unloaded::Memory),
        }
    }
}

// Opens the session's files, runs it, and gives them back.
fn run_loaded<R: Threads + Wait + Sync, H: House>(
    rt: &R,
    alloc: Global,
    loaded: Loaded,
    input: &str,
    output: &str,
    house: &mut H,
) -> Result<Served, Unserved>
    ensures session { RunsLoaded loaded (H.tells house.old) (H.file house.old) (H.file house.new) input.now output.now (H.opened house.old) (H.opened house.new) result }
    ensures others { (p : List ℕ) → p ≢ output.now → H.file house.new p ≡ H.file house.old p }
    ensures tells { H.tells house.new ≡ H.tells house.old }
{
    let Opened { source, sink } = match open(house, input, output) {
        Ok(opened) => opened,
        Err(unopened) => return Err(Unserved::from(unopened)),
    };
    match run_shipped(rt, alloc, loaded, source, sink) {
        Ok(ran) => {
            let Ran {
                history,
                runs,
                ended,
                source,
                sink,
            } = ran;
            give_back(house, source, sink);
            Ok(Served {
                history,
                runs,
                ended,
            })
        }
        Err((source, sink)) => {
            give_back(house, source, sink);
            Err(Unserved::Unloaded(Unloaded::Memory))
        }
    }
}

fn serve_files<R: Threads + Wait + Sync, H: House>(
    rt: &R,
    alloc: Global,
    call: &ServeCall,
    house: &mut H,
) -> Result<Served, Unserved>
    ensures session { Serves (H.tells house.old) (H.file house.old) (H.file house.new) (paths_in call.now.paths) call.now.input.now call.now.output.now (H.opened house.old) (H.opened house.new) result }
    ensures others { (p : List ℕ) → p ≢ call.now.output.now → H.file house.new p ≡ H.file house.old p }
    ensures tells { H.tells house.new ≡ H.tells house.old }
{
    match load(alloc, house, &call.paths) {
        Ok(loaded) => run_loaded(rt, alloc, loaded, call.input, call.output, house),
        Err(unloaded) => Err(Unserved::Unloaded(unloaded)),
    }
}

fn finish_unserved<K: Sink>(out: &mut K, unserved: Unserved) -> Status
    ensures status { result ≡ unserved_status unserved }
    ensures line { Shows (K.held out.old) (K.held out.new) (K.faults out.old) (K.faults out.new) (unserved_line unserved) }
    ensures place { K.place out.new ≡ K.place out.old }
    ensures faults { K.faults out.old ≤ K.faults out.new }
{
    match unserved {
        Unserved::Unloaded(unloaded) => finish(out, "", &Answer::from(unloaded)),
        Unserved::WriteFault => {
            let _written = write_whole(out, b"write fault\n").is_ok();
            4
        }
    }
}

fn status_of(ended: Ended) -> Status
    ensures { result ≡ ended_status ended }
{
    match ended {
        Ended::Quit | Ended::End => 0,
        Ended::TooMuch => 7,
        Ended::ReadFault => 3,
        Ended::WriteFault => 4,
    }
}

// The status where the report wasn't written.
fn unwritten_status(status: Status) -> Status
    ensures { result ≡ unwritten status }
{
    match status {
        0 | 1 => 4,
        _ => status,
    }
}

fn finish_served<K: Sink>(out: &mut K, served: &Served) -> Status
    requires { All IsOfKinds served.now.history.items }
    ensures report { Reports (report_text served.now.history.items (bound_runs served.now.runs) (served.now.ended ∷ [])) served.now.ended (K.held out.old) (K.held out.new) (K.faults out.old) (K.faults out.new) result }
    ensures place { K.place out.new ≡ K.place out.old }
    ensures faults { K.faults out.old ≤ K.faults out.new }
{
    let runs = [0, 0, 0, 0, 0, 0, 0, 0, 0, 0, served.runs];
    let status = status_of(served.ended);
    match write_report(out, served.history.as_slice(), &runs, &[served.ended]) {
        Ok(()) => status,
        Err(Failed) => unwritten_status(status),
    }
}

/// `serve BINARY FACTS HARDWARE IN OUT`: the lines of the file IN are answered in the file OUT, over one workspace, and the
/// history of the workspace is printed.
pub fn serve<R: Threads + Wait + Sync, H: House, K: Sink>(
    rt: &R,
    alloc: Global,
    words: &[String],
    house: &mut H,
    out: &mut K,
) -> Status
    // 0: the session was ended by its script, and the report was written.
    ensures served { result ≡ 0 → (end : EndedOf) × IsDone end × IsHeadline (map string_bytes words.now) (H.tells house.old) (H.file house.old) (H.file house.new) (H.opened house.old) (H.opened house.new) (Appends (K.held out.old) (K.held out.new)) end }

    // 2: exactly where the words are of another form.
    ensures usage { (result ≡ 2) ↔ IsFaultyServe (map string_bytes words.now) }
    ensures usage_line { result ≡ 2 → Shows (K.held out.old) (K.held out.new) (K.faults out.old) (K.faults out.new) (codes "usage\n") }

    // 3: only where one more source of the house failed: the line where a file or IN can't be read before the session,
    // and the report where the session ran.
    ensures read { result ≡ 3 → failed_count false (H.opened house.old) < failed_count false (H.opened house.new) }
    ensures read_line { result ≡ 3 → (Shows (K.held out.old) (K.held out.new) (K.faults out.old) (K.faults out.new) (codes "read fault\n") × IsUnserved (map string_bytes words.now) (H.tells house.old) (H.file house.old) (H.file house.new) (H.opened house.old) (H.opened house.new) (Unserved.Unloaded Unloaded.ReadFault))
        ⊎ IsHeadline (map string_bytes words.now) (H.tells house.old) (H.file house.old) (H.file house.new) (H.opened house.old) (H.opened house.new) (Shows (K.held out.old) (K.held out.new) (K.faults out.old) (K.faults out.new)) Ended.ReadFault }

    // 4: only where one more sink of the house or the output failed: the line where OUT can't be opened, and the report
    // where the session ran.
    ensures write { result ≡ 4 → (failed_count true (H.opened house.old) < failed_count true (H.opened house.new)) ⊎ Rose (K.faults out.old) (K.faults out.new) }
    ensures write_line { result ≡ 4 → (Shows (K.held out.old) (K.held out.new) (K.faults out.old) (K.faults out.new) (codes "write fault\n") × IsUnserved (map string_bytes words.now) (H.tells house.old) (H.file house.old) (H.file house.new) (H.opened house.old) (H.opened house.new) Unserved.WriteFault)
        ⊎ ((end : EndedOf) × IsHeadline (map string_bytes words.now) (H.tells house.old) (H.file house.old) (H.file house.new) (H.opened house.old) (H.opened house.new) (ShowsReport end (K.held out.old) (K.held out.new) (K.faults out.old) (K.faults out.new)) end) }

    // 5: want of memory, which may come at any time before the session.
    ensures memory_line { result ≡ 5 → Shows (K.held out.old) (K.held out.new) (K.faults out.old) (K.faults out.new) (codes "memory\n") }
    ensures memory { result ≡ 5 → IsUnserved (map string_bytes words.now) (H.tells house.old) (H.file house.old) (H.file house.new) (H.opened house.old) (H.opened house.new) (Unserved.Unloaded Unloaded.Memory) }

    // 6: exactly where a file has a fault, the binary's before the hardware's, and that before the facts'.
    ensures file { result ≡ 6 → (fault : FaultCode) × RefusesFile (map string_bytes words.now) (Holds (H.tells house.old) (H.file house.old)) (H.opened house.old) (H.opened house.new) (Shows (K.held out.old) (K.held out.new) (K.faults out.old) (K.faults out.new)) fault }
    ensures file_kept { result ≡ 6 → AreKept (H.file house.old) (H.file house.new) }
    ensures bad_file { HasFaultyFile (map string_bytes words.now) (H.file house.old) → (result ≡ 6) ⊎ ((result ≡ 3) ⊎ (result ≡ 5)) }

    // 7: the script was too much.
    ensures many { result ≡ 7 → IsHeadline (map string_bytes words.now) (H.tells house.old) (H.file house.old) (H.file house.new) (H.opened house.old) (H.opened house.new) (Shows (K.held out.old) (K.held out.new) (K.faults out.old) (K.faults out.new)) Ended.TooMuch }

    // With files without a fault and no fault of the outside the session is served.
    ensures complete { HasSoundFiles (map string_bytes words.now) (H.file house.old) → failed_count false (H.opened house.new) ≡ failed_count false (H.opened house.old) → failed_count true (H.opened house.new) ≡ failed_count true (H.opened house.old) → (Rose (K.faults out.old) (K.faults out.new) → ⊥) → (result ≡ 0) ⊎ ((result ≡ 7) ⊎ (result ≡ 5)) }

    ensures known { (result ≤ 7) × (result ≢ 1) }
    ensures opened { OpensInOrder (map string_bytes words.now) (H.opened house.old) (H.opened house.new) }
    ensures unopened { IsFaultyServe (map string_bytes words.now) → H.opened house.new ≡ H.opened house.old }
    ensures files { KeepsFiles (map string_bytes words.now) (H.file house.old) (H.file house.new) }
    ensures untouched { IsFaultyServe (map string_bytes words.now) → AreKept (H.file house.old) (H.file house.new) }
    ensures tells { H.tells house.new ≡ H.tells house.old }
    ensures place { K.place out.new ≡ K.place out.old }
    ensures faults { K.faults out.old ≤ K.faults out.new }
{
    match serve_call(words) {
        None => finish(out, "", &Answer::Usage),
        Some(call) => match serve_files(rt, alloc, &call, house) {
            Ok(served) => finish_served(out, &served),
            Err(unserved) => finish_unserved(out, unserved),
        },
    }
}
