ghost use Rattle.std.specs.Prelude.{◌≡◌, ◌≤◌, Some};
ghost use Rattle.wc_core.specs.Features.{value_at};
ghost use Rattle.wc_works.specs.Required.{IsThere, number_of, seen, seen_by};

use wc_base::Fault;
use wc_core::Given;
use wc_model::{
    Bounds, Category, Costs, Flags, Graph, Kind, LineMap, Nest, Solution, System, Table, Value,
};

/// The kind of a number.
pub(crate) fn kind(number: u8) -> Kind
    requires { (1 ≤ number) × (number ≤ 64) }
    ensures { result ≡ number }
{
    match Kind::new(number) {
        Some(kind) => kind,
        None => unreachable!(),
    }
}

fn value_of(given: &Given<Value>, number: u8) -> &Value
    requires number { (1 ≤ number) × (number ≤ 64) }
    requires there { IsThere given.now number }
    ensures there { value_at number given.now ≡ Some result.now }
    ensures number { number_of result.now ≡ number }
{
    match given.get(kind(number)) {
        Some(value) => value,
        None => unreachable!(),
    }
}

fn borrowed<T>(own: &Result<T, Fault>) -> Result<&T, Fault>
    ensures { seen_by (λ a. a.now) result ≡ own.now }
{
    match own {
        Ok(value) => Ok(value),
        Err(fault) => Err(*fault),
    }
}

pub(crate) fn graph_in(given: &Given<Value>) -> Result<&Graph, Fault>
    requires { IsThere given.now 1 }
    ensures { value_at 1 given.now ≡ Some (Value.Graph (seen result)) }
{
    match value_of(given, 1) {
        Value::Graph(result) => borrowed(result),
        _ => unreachable!(),
    }
}

pub(crate) fn nest_in(given: &Given<Value>) -> Result<&Nest, Fault>
    requires { IsThere given.now 2 }
    ensures { value_at 2 given.now ≡ Some (Value.Nest (seen result)) }
{
    match value_of(given, 2) {
        Value::Nest(result) => borrowed(result),
        _ => unreachable!(),
    }
}

pub(crate) fn bounds_in(given: &Given<Value>) -> Result<&Bounds, Fault>
    requires { IsThere given.now 3 }
    ensures { value_at 3 given.now ≡ Some (Value.Bounds (seen result)) }
{
    match value_of(given, 3) {
        Value::Bounds(result) => borrowed(result),
        _ => unreachable!(),
    }
}

pub(crate) fn lines_in(given: &Given<Value>) -> Result<&LineMap, Fault>
    requires { IsThere given.now 4 }
    ensures { value_at 4 given.now ≡ Some (Value.Lines (seen result)) }
{
    match value_of(given, 4) {
        Value::Lines(result) => borrowed(result),
        _ => unreachable!(),
    }
}

pub(crate) fn must_in(given: &Given<Value>) -> Result<&Flags, Fault>
    requires { IsThere given.now 5 }
    ensures { value_at 5 given.now ≡ Some (Value.Must (seen result)) }
{
    match value_of(given, 5) {
        Value::Must(result) => borrowed(result),
        _ => unreachable!(),
    }
}

pub(crate) fn may_in(given: &Given<Value>) -> Result<&Flags, Fault>
    requires { IsThere given.now 6 }
    ensures { value_at 6 given.now ≡ Some (Value.May (seen result)) }
{
    match value_of(given, 6) {
        Value::May(result) => borrowed(result),
        _ => unreachable!(),
    }
}

pub(crate) fn category_in(given: &Given<Value>) -> Result<&Table<Category>, Fault>
    requires { IsThere given.now 7 }
    ensures { value_at 7 given.now ≡ Some (Value.Category (seen result)) }
{
    match value_of(given, 7) {
        Value::Category(result) => borrowed(result),
        _ => unreachable!(),
    }
}

pub(crate) fn cost_in(given: &Given<Value>) -> Result<&Costs, Fault>
    requires { IsThere given.now 8 }
    ensures { value_at 8 given.now ≡ Some (Value.Cost (seen result)) }
{
    match value_of(given, 8) {
        Value::Cost(result) => borrowed(result),
        _ => unreachable!(),
    }
}

pub(crate) fn system_in(given: &Given<Value>) -> Result<&System, Fault>
    requires { IsThere given.now 9 }
    ensures { value_at 9 given.now ≡ Some (Value.System (seen result)) }
{
    match value_of(given, 9) {
        Value::System(result) => borrowed(result),
        _ => unreachable!(),
    }
}

pub(crate) fn solution_in(given: &Given<Value>) -> Result<&Solution, Fault>
    requires { IsThere given.now 10 }
    ensures { value_at 10 given.now ≡ Some (Value.Solution (seen result)) }
{
    match value_of(given, 10) {
        Value::Solution(result) => borrowed(result),
        _ => unreachable!(),
    }
}
