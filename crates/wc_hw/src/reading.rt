ghost use Rattle.std.specs.Prelude.{◌≡◌, ◌≤◌, Some, MatchResult};
ghost use Rattle.serde_json.specs.Data.{Data};
ghost use Rattle.serde_json.specs.View.{view};
ghost use Rattle.wc_hw.specs.HardwareFile.{AreCycles, IsCache, IsHardware, first_wrong, hit_of, line_of, miss_of, sets_of, start_of, ways_of, wrong_cache_field, wrong_class};
ghost use Rattle.wc_hw.specs.Reading.{ReadsAs};

use crate::members::{
    are_cycles_right, cache_number, cycles_of, has_cache, is_icache_right, is_root, member,
};
use serde_json::Value;
use std::alloc::{AllocError, Global};
use wc_base::{Fault, FieldWord, Trouble};
use wc_model::{Cache, Cycles, Hardware, StartState};

/// The ten costs of the classes, with no cost of a fetch.
fn read_cycles(value: &Value) -> Result<Cycles, FieldWord>
    ensures { MatchResult result
        (λ c. (wrong_class (view value.now) ≡ None) × AreCycles c (view value.now) × (c.hit ≡ 0) × (c.miss ≡ 0))
        (λ word. wrong_class (view value.now) ≡ Some word) }
{
    let Some(alu) = cycles_of(value, "alu", 1) else {
        return Err(FieldWord::Alu);
    };
    let Some(mul) = cycles_of(value, "mul", 1) else {
        return Err(FieldWord::Mul);
    };
    let Some(div) = cycles_of(value, "div", 1) else {
        return Err(FieldWord::Div);
    };
    let Some(load) = cycles_of(value, "load", 1) else {
        return Err(FieldWord::Load);
    };
    let Some(store) = cycles_of(value, "store", 1) else {
        return Err(FieldWord::Store);
    };
    let Some(multi) = cycles_of(value, "multi", 1) else {
        return Err(FieldWord::Multi);
    };
    let Some(branch) = cycles_of(value, "branch", 1) else {
        return Err(FieldWord::Branch);
    };
    let Some(system) = cycles_of(value, "system", 1) else {
        return Err(FieldWord::System);
    };
    let Some(taken) = cycles_of(value, "taken", 0) else {
        return Err(FieldWord::Taken);
    };
    let Some(per_register) = cycles_of(value, "per_register", 0) else {
        return Err(FieldWord::PerRegister);
    };
    Ok(Cycles {
        alu,
        mul,
        div,
        load,
        store,
        multi,
        branch,
        system,
        taken,
        per_register,
        hit: 0,
        miss: 0,
    })
}

fn sets_of(value: &Value) -> Option<u16>
    ensures { result ≡ sets_of (view value.now) }
{
    match cache_number(value, "sets")? {
        sets @ (1 | 2 | 4 | 8 | 16 | 32 | 64 | 128 | 256 | 512) => Some(sets as u16),
        _ => None,
    }
}

fn ways_of(value: &Value) -> Option<u8>
    ensures { result ≡ ways_of (view value.now) }
{
    match cache_number(value, "ways")? {
        ways @ 1..=8 => Some(ways as u8),
        _ => None,
    }
}

fn line_of(value: &Value) -> Option<u8>
    ensures { result ≡ line_of (view value.now) }
{
    match cache_number(value, "line")? {
        line @ (16 | 32 | 64) => Some(line as u8),
        _ => None,
    }
}

fn hit_of(value: &Value) -> Option<u16>
    ensures { result ≡ hit_of (view value.now) }
{
    match cache_number(value, "hit")? {
        hit @ 0..=65535 => Some(hit as u16),
        _ => None,
    }
}

fn miss_of(value: &Value, hit: u16) -> Option<u16>
    requires { hit_of (view value.now) ≡ Some hit }
    ensures { result ≡ miss_of (view value.now) }
{
    match cache_number(value, "miss")? {
        miss @ 0..=65535 if miss >= hit as u64 => Some(miss as u16),
        _ => None,
    }
}

fn start_of(value: &Value) -> Option<StartState>
    ensures { result ≡ start_of (view value.now) }
{
    match member(value, "icache", "start")?.as_str()? {
        "empty" => Some(StartState::Empty),
        "any" => Some(StartState::Any),
        _ => None,
    }
}

/// A cache, and the cycles of a fetch that hits or misses it.
#[derive(Clone, Copy)]
struct CacheCosts {
    cache: Cache,
    hit: u16,
    miss: u16,
    ghost hit_is_least: { hit ≤ miss },
}

fn read_cache(value: &Value) -> Result<CacheCosts, FieldWord>
    ensures { MatchResult result
        (λ c. (wrong_cache_field (view value.now) ≡ None) × IsCache c.hit c.miss c.cache (view value.now))
        (λ word. wrong_cache_field (view value.now) ≡ Some word) }
{
    let Some(sets) = sets_of(value) else {
        return Err(FieldWord::Sets);
    };
    let Some(ways) = ways_of(value) else {
        return Err(FieldWord::Ways);
    };
    let Some(line) = line_of(value) else {
        return Err(FieldWord::Line);
    };
    let Some(hit) = hit_of(value) else {
        return Err(FieldWord::Hit);
    };
    let Some(miss) = miss_of(value, hit) else {
        return Err(FieldWord::Miss);
    };
    let Some(start) = start_of(value) else {
        return Err(FieldWord::Start);
    };
    let cache = Cache {
        sets,
        ways,
        line,
        start,
    };
    Ok(CacheCosts { cache, hit, miss })
}

fn with_cache(cycles: &Cycles, costs: &CacheCosts) -> Hardware
    ensures classes { (d : Data) → AreCycles cycles.now d → AreCycles result.cycles d }
    ensures hit { result.cycles.hit ≡ costs.now.hit }
    ensures miss { result.cycles.miss ≡ costs.now.miss }
    ensures cache { result.cache ≡ Some costs.now.cache }
{
    Hardware {
        cycles: Cycles {
            alu: cycles.alu,
            mul: cycles.mul,
            div: cycles.div,
            load: cycles.load,
            store: cycles.store,
            multi: cycles.multi,
            branch: cycles.branch,
            system: cycles.system,
            taken: cycles.taken,
            per_register: cycles.per_register,
            hit: costs.hit,
            miss: costs.miss,
        },
        cache: Some(costs.cache),
    }
}

/// What a JSON value states, or its first wrong name.
fn hardware_of(value: &Value) -> Result<Hardware, FieldWord>
    ensures { MatchResult result
        (λ h. IsHardware h (view value.now))
        (λ word. first_wrong (view value.now) ≡ Some word) }
{
    if !is_root(value) {
        return Err(FieldWord::Root);
    }
    if !are_cycles_right(value) {
        return Err(FieldWord::Cycles);
    }
    let cycles = match read_cycles(value) {
        Ok(cycles) => cycles,
        Err(word) => return Err(word),
    };
    if !is_icache_right(value) {
        return Err(FieldWord::Icache);
    }
    if !has_cache(value) {
        return Ok(Hardware {
            cycles,
            cache: None,
        });
    }
    let costs = match read_cache(value) {
        Ok(costs) => costs,
        Err(word) => return Err(word),
    };
    Ok(with_cache(&cycles, &costs))
}

/// The hardware that a JSON value states. It answers fault 10 exactly where the bytes are no JSON value, and fault 11
/// with the first wrong name.
pub fn read_hardware(alloc: Global, bytes: &[u8]) -> Result<Hardware, Trouble>
    ensures { ReadsAs bytes.now result }
{
    match Value::from_slice(alloc, bytes) {
        Ok(value) => match hardware_of(&value) {
            Ok(hardware) => Ok(hardware),
            Err(word) => Err(Trouble::Fault(Fault::BadField(word))),
        },
        Err(error) if error.is_memory() => Err(Trouble::Memory(AllocError)),
        Err(_) => Err(Trouble::Fault(Fault::BadJson)),
    }
}
