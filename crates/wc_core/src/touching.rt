ghost use Rattle.std.specs.Prelude.{◌≡◌, ◌==◌, ◌&&◌, ◌||◌, None, Some, MatchOption, MatchResult, IfOk, false, map, option_map, position, true};
ghost use Rattle.wc_model.specs.Workspace.Closures.{closure};
ghost use Rattle.wc_model.specs.Workspace.Edits.{Setting, belongs, edited, fact_numbered, setting_of, touches, touches_fact, without_number};
ghost use Rattle.wc_model.specs.Workspace.History.{can_edit, is_live};
ghost use Rattle.wc_core.specs.Inner.Touching.{AreTouched, stamped, touches_kind};
ghost use Rattle.wc_registry.specs.Inner.Required.{has_part};

use std::alloc::{AllocError, Global};
use std::sync::Arc;
use wc_model::{
    Edit, Fact, Facts, Hardware, Inputs, Kind, Part, copy_fact, copy_facts, same_cache, same_cycles,
};
use wc_registry::Registry;

// Which parts of the inputs an edit touches.
#[derive(Clone, Copy)]
pub struct Touched {
    pub steer: bool,
    pub loops: bool,
    pub limits: bool,
    pub cache: bool,
    pub cycles: bool,
}

// The place of the live fact with a number.
fn place_of(facts: &[(u64, Fact)], number: u64) -> Option<usize>
    ensures { result ≡ position (λ f. f.0 == number) facts.now }
{
    facts.iter().position(|fact| fact.0 == number)
}

// The live fact with a number.
fn find_fact(facts: &[(u64, Fact)], number: u64) -> Option<&Fact>
    ensures { option_map (λ f. f.now) result ≡ fact_numbered number facts.now }
{
    for fact in facts {
        if fact.0 == number {
            return Some(&fact.1);
        }
    }
    None
}

// The number of the fact that an edit would drop, where no live fact has it.
pub fn missing_fact(inputs: &Inputs, edit: &Edit) -> Option<u64>
    ensures { MatchOption result (can_edit edit.now (setting_of inputs.now) ≡ true) (λ n. (edit.now ≡ Edit.Drop n) × (is_live n (setting_of inputs.now) ≡ false)) }
{
    match edit {
        Edit::Drop(number) => match find_fact(inputs.facts.items(), *number) {
            Some(_) => None,
            None => Some(*number),
        },
        _ => None,
    }
}

fn touched_by_fact(fact: &Fact) -> Touched
    ensures { AreTouched (λ part. belongs part fact.now) result }
{
    Touched {
        steer: matches!(
            fact,
            Fact::Multibranch { .. } | Fact::Multicall { .. } | Fact::Noreturn { .. }
        ),
        loops: matches!(fact, Fact::Loop { .. }),
        limits: matches!(fact, Fact::Limit { .. }),
        cache: false,
        cycles: false,
    }
}

fn touched_by_dropped(facts: &[(u64, Fact)], number: u64) -> Touched
    ensures { AreTouched (λ part. touches_fact part (fact_numbered number facts.now)) result }
{
    match find_fact(facts, number) {
        Some(fact) => touched_by_fact(fact),
        None => Touched {
            steer: false,
            loops: false,
            limits: false,
            cache: false,
            cycles: false,
        },
    }
}

fn touched_by_hardware(old: &Hardware, new: &Hardware) -> Touched
    ensures { (s : Setting) → s.hardware ≡ old.now → AreTouched (λ part. touches part s (Edit.Hardware new.now)) result }
{
    Touched {
        steer: false,
        loops: false,
        limits: false,
        cache: !same_cache(&old.cache, &new.cache),
        cycles: !same_cycles(&old.cycles, &new.cycles),
    }
}

/// Which parts of the inputs that it finds an edit touches.
pub fn touched_by(inputs: &Inputs, edit: &Edit) -> Touched
    ensures { AreTouched (λ part. touches part (setting_of inputs.now) edit.now) result }
{
    match edit {
        Edit::Add(fact) => touched_by_fact(fact),
        Edit::Drop(number) => touched_by_dropped(inputs.facts.items(), *number),
        Edit::Hardware(hardware) => touched_by_hardware(&inputs.hardware, hardware),
    }
}

fn reads(registry: &Registry, kind: Kind, part: Part) -> bool
    ensures { result ≡ has_part part (closure registry.now kind) }
{
    registry.reads(kind, part)
}

fn both(left: bool, right: bool) -> bool
    ensures { result ≡ (left && right) }
{
    left && right
}

fn either(left: bool, right: bool) -> bool
    ensures { result ≡ (left || right) }
{
    left || right
}

/// Whether a kind depends on a touched part.
pub fn is_touched(registry: &Registry, kind: Kind, touched: Touched) -> bool
    ensures { result ≡ touches_kind touched (closure registry.now kind) }
{
    let steer = both(touched.steer, reads(registry, kind, Part::Steer));
    let loops = both(touched.loops, reads(registry, kind, Part::Loops));
    let limits = both(touched.limits, reads(registry, kind, Part::Limits));
    let cache = both(touched.cache, reads(registry, kind, Part::Cache));
    let cycles = both(touched.cycles, reads(registry, kind, Part::Cycles));
    either(steer, either(loops, either(limits, either(cache, cycles))))
}

/// Gives the touched kinds a new stamp.
pub fn stamp(keys: &mut Vec<(Kind, u64)>, registry: &Registry, touched: Touched, count: u64)
    ensures { keys.new.items ≡ map (stamped (λ k. touches_kind touched (closure registry.now k)) count) keys.old.items }
{
    for key in keys.iter_mut() {
        if is_touched(registry, key.0, touched) {
            key.1 = count;
        }
    }
}

// Changes inputs that nobody else holds. Without memory they stay as they were.
fn change(inputs: &mut Inputs, count: u64, edit: &Edit) -> Result<(), AllocError>
    ensures { MatchResult result (λ _. setting_of inputs.new ≡ edited count (setting_of inputs.old) edit.now) (λ _. setting_of inputs.new ≡ setting_of inputs.old) }
{
    match edit {
        Edit::Add(fact) => inputs.facts.push((count, copy_fact(fact)?)),
        Edit::Drop(number) => {
            drop_fact(&mut inputs.facts, *number);
            Ok(())
        }
        Edit::Hardware(hardware) => {
            inputs.hardware = *hardware;
            Ok(())
        }
    }
}

fn drop_fact(facts: &mut Facts, number: u64)
    ensures { facts.new ≡ without_number number facts.old }
{
    if let Some(place) = place_of(facts.items(), number) {
        facts.remove(place);
    }
}

fn changed(alloc: Global, inputs: &Inputs, count: u64, edit: &Edit) -> Result<Inputs, AllocError>
    ensures { IfOk result (λ i. setting_of i ≡ edited count (setting_of inputs.now) edit.now) }
{
    let mut copy = Inputs {
        image: Arc::try_clone(&inputs.image)?,
        facts: copy_facts(alloc, &inputs.facts)?,
        hardware: inputs.hardware,
    };
    change(&mut copy, count, edit)?;
    Ok(copy)
}

/// Changes the inputs in place, or a copy where somebody else holds them. Without memory they stay as they were.
pub fn edit_inputs(
    alloc: Global,
    inputs: &mut Arc<Inputs>,
    count: u64,
    edit: &Edit,
) -> Result<(), AllocError>
    ensures { MatchResult result (λ _. setting_of inputs.new.value ≡ edited count (setting_of inputs.old.value) edit.now) (λ _. setting_of inputs.new.value ≡ setting_of inputs.old.value) }
{
    match Arc::get_mut(inputs) {
        Some(own) => change(own, count, edit),
        None => {
            let copy = changed(alloc, inputs, count, edit)?;
            *inputs = Arc::new(alloc, copy)?;
            Ok(())
        }
    }
}
