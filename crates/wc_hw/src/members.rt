ghost use Rattle.std.specs.Prelude.{◌≡◌, not, option_map, string_bytes};
ghost use Rattle.std.specs.List.{list_all};
ghost use Rattle.serde_json.specs.View.{view};
ghost use Rattle.wc_hw.specs.HardwareFile.{cache_number, checked, cycles_are_wrong, cycles_of, has_cache, icache_is_wrong, is_cache_key, is_class_key, is_cost, is_object_with, is_root_key, member_of, whole};

use serde_json::{Map, Value};

fn is_root_key(key: &str) -> bool
    ensures { result ≡ is_root_key key.now }
{
    key == "cycles" || key == "icache"
}

fn is_class_key(key: &str) -> bool
    ensures { result ≡ is_class_key key.now }
{
    key == "alu"
        || key == "mul"
        || key == "div"
        || key == "load"
        || key == "store"
        || key == "multi"
        || key == "branch"
        || key == "system"
        || key == "taken"
        || key == "per_register"
}

fn is_cache_key(key: &str) -> bool
    ensures { result ≡ is_cache_key key.now }
{
    key == "sets"
        || key == "ways"
        || key == "line"
        || key == "hit"
        || key == "miss"
        || key == "start"
}

fn has_root_keys(object: &Map<String, Value>) -> bool
    ensures { result ≡ list_all (λ e. is_root_key (string_bytes e.0)) object.now.entries }
{
    object.iter().all(|(key, _value)| is_root_key(key.as_str()))
}

fn has_class_keys(object: &Map<String, Value>) -> bool
    ensures { result ≡ list_all (λ e. is_class_key (string_bytes e.0)) object.now.entries }
{
    object
        .iter()
        .all(|(key, _value)| is_class_key(key.as_str()))
}

fn has_cache_keys(object: &Map<String, Value>) -> bool
    ensures { result ≡ list_all (λ e. is_cache_key (string_bytes e.0)) object.now.entries }
{
    object
        .iter()
        .all(|(key, _value)| is_cache_key(key.as_str()))
}

/// An object with no key beside `cycles` and `icache`.
pub fn is_root(value: &Value) -> bool
    ensures { result ≡ is_object_with is_root_key (view value.now) }
{
    match value.as_object() {
        Some(object) => has_root_keys(object),
        None => false,
    }
}

/// An object with no key beside the ten of the cycles.
fn is_cycles(value: &Value) -> bool
    ensures { result ≡ is_object_with is_class_key (view value.now) }
{
    match value.as_object() {
        Some(object) => has_class_keys(object),
        None => false,
    }
}

/// An object with no key beside the six of a cache.
fn is_cache(value: &Value) -> bool
    ensures { result ≡ is_object_with is_cache_key (view value.now) }
{
    match value.as_object() {
        Some(object) => has_cache_keys(object),
        None => false,
    }
}

/// Missing cycles, or an object of the ten.
pub fn are_cycles_right(value: &Value) -> bool
    ensures { result ≡ not (cycles_are_wrong (view value.now)) }
{
    match value.get("cycles") {
        Some(part) => is_cycles(part),
        None => true,
    }
}

/// No cache, or an object of the six.
pub fn is_icache_right(value: &Value) -> bool
    ensures { result ≡ not (icache_is_wrong (view value.now)) }
{
    match value.get("icache") {
        Some(part) => part.is_null() || is_cache(part),
        None => true,
    }
}

pub fn has_cache(value: &Value) -> bool
    ensures { result ≡ has_cache (view value.now) }
{
    match value.get("icache") {
        Some(part) => !part.is_null(),
        None => false,
    }
}

pub fn member<'a>(value: &'a Value, part: &str, name: &str) -> Option<&'a Value>
    ensures { option_map (λ v. view v.now) result ≡ member_of part.now name.now (view value.now) }
{
    value.get(part)?.get(name)
}

/// A whole number from 0 to 65,535.
fn cost(value: &Value) -> Option<u16>
    ensures { result ≡ checked is_cost (whole (view value.now)) }
{
    match value.as_u64() {
        Some(number) if number <= 65535 => Some(number as u16),
        _ => None,
    }
}

/// The cycles of a class, and none where they are wrong.
pub fn cycles_of(value: &Value, name: &str, default: u16) -> Option<u16>
    ensures { result ≡ cycles_of name.now default (view value.now) }
{
    match member(value, "cycles", name) {
        Some(cycles) => cost(cycles),
        None => Some(default),
    }
}

/// A whole number of the cache.
pub fn cache_number(value: &Value, name: &str) -> Option<u64>
    ensures { result ≡ cache_number name.now (view value.now) }
{
    member(value, "icache", name)?.as_u64()
}
