ghost use Rattle.std.specs.Prelude.{◌≡◌, ◌++◌, IfOk, map};
ghost use Rattle.wc_graph.specs.Inner.Ways.{AddsCall, AddsCalls, AddsTaken, TellsWays, jump_turn, next_turns};
ghost use Rattle.wc_model.specs.Program.Steps.{passes_on};

use crate::frames::{Turn, Way};
use crate::stated::Stated;
use std::alloc::{AllocError, Global};
use wc_a32::insn;
use wc_base::{Addr, Fault};
use wc_model::{Control, Image, Insn};

// A call of a function, unless it is stated not to return.
fn push_call(
    turns: &mut Vec<Turn>,
    stated: &Stated,
    at: Addr,
    callee: Addr,
) -> Result<(), AllocError>
    ensures { IfOk result (λ _. AddsCall stated.now at callee turns.old.items turns.new.items) }
{
    if stated.is_noreturn(callee) {
        return Ok(());
    }
    turns.push(Turn {
        way: Way::Call {
            callee,
            returns: at.wrapping_add(4),
        },
        taken: true,
    })?;
    Ok(())
}

// Calls of these functions.
fn push_calls(
    turns: &mut Vec<Turn>,
    stated: &Stated,
    at: Addr,
    callees: &[Addr],
) -> Result<(), AllocError>
    ensures { IfOk result (λ _. AddsCalls stated.now at callees.now turns.old.items turns.new.items) }
{
    for callee in callees {
        push_call(turns, stated, at, *callee)?;
    }
    Ok(())
}

// Jumps to these addresses.
fn push_jumps(turns: &mut Vec<Turn>, targets: &[Addr]) -> Result<(), AllocError>
    ensures { IfOk result (λ _. turns.new.items ≡ turns.old.items ++ map jump_turn targets.now) }
{
    for target in targets {
        turns.push(Turn {
            way: Way::Go(*target),
            taken: true,
        })?;
    }
    Ok(())
}

// The taken ways; false where nothing is stated of an indirect jump or call.
fn push_taken(
    alloc: Global,
    turns: &mut Vec<Turn>,
    stated: &Stated,
    at: Addr,
    control: Control,
) -> Result<bool, AllocError>
    ensures { IfOk result (AddsTaken stated.now at control turns.old.items turns.new.items) }
{
    match control {
        Control::Next => {}
        Control::Jump(target) => push_jumps(turns, &[target])?,
        Control::Call(callee) => push_call(turns, stated, at, callee)?,
        Control::Return => turns.push(Turn {
            way: Way::Leave,
            taken: true,
        })?,
        Control::IndirectJump => {
            let targets = stated.jumps_of(alloc, at)?;
            push_jumps(turns, targets.as_slice())?;
            return Ok(!targets.is_empty());
        }
        Control::IndirectCall => {
            let callees = stated.calls_of(alloc, at)?;
            push_calls(turns, stated, at, callees.as_slice())?;
            return Ok(!callees.is_empty());
        }
    }
    Ok(true)
}

// Whether control may pass on to the next address.
fn passes_on(insn: &Insn) -> bool
    ensures { result ≡ passes_on insn.now }
{
    match insn.control {
        Control::Next => true,
        _ => !insn.always,
    }
}

// The way on to the next address.
fn push_next(turns: &mut Vec<Turn>, at: Addr, passes: bool) -> Result<(), AllocError>
    ensures { IfOk result (λ _. turns.new.items ≡ turns.old.items ++ next_turns at passes) }
{
    if passes {
        turns.push(Turn {
            way: Way::Go(at.wrapping_add(4)),
            taken: false,
        })?;
    }
    Ok(())
}

/// The ways out of the instruction at an address, in place of what was there; or why it can't be analysed.
pub fn ways(
    alloc: Global,
    image: &Image,
    stated: &Stated,
    at: Addr,
    turns: &mut Vec<Turn>,
) -> Result<Option<Fault>, AllocError>
    ensures { IfOk result (TellsWays image.now stated.now at turns.new.items) }
{
    let Some(word) = image.word(at) else {
        return Ok(Some(Fault::OutOfText(at)));
    };
    let Some(insn) = insn(at, word) else {
        return Ok(Some(Fault::UnknownInstruction(at)));
    };
    turns.clear();
    if !push_taken(alloc, turns, stated, at, insn.control)? {
        return Ok(Some(Fault::Unresolved(at)));
    }
    push_next(turns, at, passes_on(&insn))?;
    Ok(None)
}
