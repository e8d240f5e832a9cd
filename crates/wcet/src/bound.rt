ghost use Rattle.std.specs.Prelude.{◌≡◌, ◌<◌, ◌≤◌, ◌↔◌, ◌⊎◌, ℕ, List, codes, map, string_bytes, false, IfOk};
ghost use Rattle.std.specs.Io.KnownBytes.{Appends};
ghost use Rattle.wc_base.specs.declared.faults.Fault.{Fault as FaultCode};
ghost use Rattle.wc_io.specs.Causes.{Rose};
ghost use Rattle.wc_io.specs.Rows.{failed_count};
ghost use Rattle.wc_io.specs.Writing.{AppendsPart};
ghost use Rattle.wcet.specs.Answers.{Shows};
ghost use Rattle.wcet.specs.Chained.{covers};
ghost use Rattle.wc_model.specs.Workspace.Chain.{chain as chain_of};
ghost use Rattle.wcet.specs.BoundCall.{setting_in, Explains, Prints, Refuses, RunsOut, HasFault, AreSound, Opens, StopsReading};
ghost use Rattle.wcet.specs.Files.{Holds};
ghost use Rattle.wcet.specs.Words.{IsFaultyCall, paths_in};

use crate::Status;
use crate::answers::{Answer, finish};
use crate::chain::chain;
use crate::loading::{Loaded, load};
use crate::words::{BoundCall, bound_call};
use std::alloc::{AllocError, Global};
use std::thread::Threads;
use wc_io::{House, Sink};
use wc_model::{Outcome, opening_facts};

fn outcome_of<R: Threads + Sync>(
    rt: &R,
    alloc: Global,
    loaded: Loaded,
    name: &str,
) -> Result<Outcome, AllocError>
    ensures outcome { IfOk result (chain_of (setting_in loaded) name.now) }
    ensures safe { IfOk result (covers (setting_in loaded) name.now) }
{
    let facts = opening_facts(alloc, loaded.facts.as_slice())?;
    chain(
        rt,
        alloc,
        &loaded.image,
        &facts,
        &loaded.hardware,
        name.as_bytes(),
    )
}

fn answer_to<R: Threads + Sync, H: House>(
    rt: &R,
    alloc: Global,
    call: &BoundCall,
    house: &mut H,
) -> Answer
    ensures answer { Explains (Holds (H.tells house.old) (H.file house.old)) (paths_in call.now.paths) call.now.name.now (H.opened house.old) (H.opened house.new) result }
    ensures files { (p : List ℕ) → H.file house.new p ≡ H.file house.old p }
    ensures tells { H.tells house.new ≡ H.tells house.old }
{
    match load(alloc, house, &call.paths) {
        Ok(loaded) => match outcome_of(rt, alloc, loaded, call.name) {
            Ok(outcome) => Answer::Analysed(outcome),
            Err(AllocError) => Answer::Memory,
        },
        Err(unloaded) => Answer::from(unloaded),
    }
}

/// `bound BINARY FACTS HARDWARE FUNCTION`: the bound of one function in cycles, by the fresh sequential chain.
pub fn bound_once<R: Threads + Sync, H: House, K: Sink>(
    rt: &R,
    alloc: Global,
    words: &[String],
    house: &mut H,
    out: &mut K,
) -> Status
    // 0 and 1: the line of the chain's outcome was written.
    ensures bound { result ≡ 0 → (cycles : ℕ) × Prints (map string_bytes words.now) (Holds (H.tells house.old) (H.file house.old)) (H.opened house.old) (H.opened house.new) (Appends (K.held out.old) (K.held out.new)) (Outcome.Bound cycles) }
    ensures refused { result ≡ 1 → (fault : FaultCode) × Prints (map string_bytes words.now) (Holds (H.tells house.old) (H.file house.old)) (H.opened house.old) (H.opened house.new) (Appends (K.held out.old) (K.held out.new)) (Outcome.Fault fault) }

    // 2: exactly where the words are of no known form.
    ensures usage { (result ≡ 2) ↔ IsFaultyCall (map string_bytes words.now) }
    ensures usage_line { result ≡ 2 → Shows (K.held out.old) (K.held out.new) (K.faults out.old) (K.faults out.new) (codes "usage\n") }

    // 3: only where one more source of the house failed, with the last row, and the files before it have no fault.
    ensures read { result ≡ 3 → failed_count false (H.opened house.old) < failed_count false (H.opened house.new) }
    ensures unread { result ≡ 3 → StopsReading (map string_bytes words.now) (Holds (H.tells house.old) (H.file house.old)) (H.opened house.old) (H.opened house.new) }
    ensures read_line { result ≡ 3 → Shows (K.held out.old) (K.held out.new) (K.faults out.old) (K.faults out.new) (codes "read fault\n") }

    // 4: only where the output failed.
    ensures write { result ≡ 4 → Rose (K.faults out.old) (K.faults out.new) }
    ensures write_line { result ≡ 4 → ((cycles : ℕ) × Prints (map string_bytes words.now) (Holds (H.tells house.old) (H.file house.old)) (H.opened house.old) (H.opened house.new) (AppendsPart (K.held out.old) (K.held out.new)) (Outcome.Bound cycles)) ⊎ ((fault : FaultCode) × Prints (map string_bytes words.now) (Holds (H.tells house.old) (H.file house.old)) (H.opened house.old) (H.opened house.new) (AppendsPart (K.held out.old) (K.held out.new)) (Outcome.Fault fault)) }

    // 5: want of memory, which may come at any time; the files before the last one that was asked for have no fault.
    ensures memory { result ≡ 5 → RunsOut (map string_bytes words.now) (Holds (H.tells house.old) (H.file house.old)) (H.opened house.old) (H.opened house.new) }
    ensures memory_line { result ≡ 5 → Shows (K.held out.old) (K.held out.new) (K.faults out.old) (K.faults out.new) (codes "memory\n") }

    // 6: exactly where a file has a fault, the binary's before the hardware's, and that before the facts'.
    ensures file { result ≡ 6 → (fault : FaultCode) × Refuses (map string_bytes words.now) (Holds (H.tells house.old) (H.file house.old)) (H.opened house.old) (H.opened house.new) (Shows (K.held out.old) (K.held out.new) (K.faults out.old) (K.faults out.new)) fault }
    ensures bad_file { HasFault (map string_bytes words.now) (H.file house.old) → (result ≡ 6) ⊎ ((result ≡ 3) ⊎ (result ≡ 5)) }

    // With files without a fault and no fault of the outside the chain is answered.
    ensures complete { AreSound (map string_bytes words.now) (H.file house.old) → failed_count false (H.opened house.new) ≡ failed_count false (H.opened house.old) → (Rose (K.faults out.old) (K.faults out.new) → ⊥) → (result ≡ 0) ⊎ ((result ≡ 1) ⊎ (result ≡ 5)) }

    ensures known { result ≤ 6 }
    ensures opened { Opens (map string_bytes words.now) (H.opened house.old) (H.opened house.new) }
    ensures unopened { IsFaultyCall (map string_bytes words.now) → H.opened house.new ≡ H.opened house.old }
    ensures files { (p : List ℕ) → H.file house.new p ≡ H.file house.old p }
    ensures tells { H.tells house.new ≡ H.tells house.old }
    ensures place { K.place out.new ≡ K.place out.old }
    ensures faults { K.faults out.old ≤ K.faults out.new }
{
    match bound_call(words) {
        None => finish(out, "", &Answer::Usage),
        Some(call) => {
            let answer = answer_to(rt, alloc, &call, house);
            finish(out, call.name, &answer)
        }
    }
}
