ghost use Rattle.std.specs.Prelude.{◌≡◌, Some, IfOk};
ghost use Rattle.wc_model.specs.Workspace.Closures.{has_kind, has_all, lesser, next_available, order_of};

use std::alloc::{AllocError, Global};
use wc_model::{Describe, Kind};

// Each kind after what it requires, the least available first.
pub fn ordered(alloc: Global, list: &[Describe]) -> Result<Vec<Kind>, AllocError>
    ensures { IfOk result (λ order. order.items ≡ order_of list.now) }
{
    let mut order = Vec::with_capacity(alloc, list.len())?;
    for _describe in list {
        if let Some(kind) = next_available(list, order.as_slice()) {
            order.push(kind)?;
        }
    }
    Ok(order)
}

// The least kind that isn't placed although all that it requires is.
fn next_available(list: &[Describe], placed: &[Kind]) -> Option<Kind>
    ensures { result ≡ next_available list.now placed.now }
{
    let mut least = None;
    for describe in list {
        if !has(placed, describe.provides) && has_all(placed, describe.requires_.items()) {
            least = Some(lesser(describe.provides, least));
        }
    }
    least
}

fn has(kinds: &[Kind], kind: Kind) -> bool
    ensures { result ≡ has_kind kind kinds.now }
{
    kinds.iter().any(|other| other.number() == kind.number())
}

fn has_all(placed: &[Kind], kinds: &[Kind]) -> bool
    ensures { result ≡ has_all kinds.now placed.now }
{
    kinds.iter().all(|kind| has(placed, *kind))
}

fn lesser(kind: Kind, other: Option<Kind>) -> Kind
    ensures { Some result ≡ lesser kind other }
{
    match other {
        Some(other) if other.number() <= kind.number() => other,
        _ => kind,
    }
}
