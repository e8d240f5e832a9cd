ghost use Rattle.std.specs.Prelude.{◌≡◌, ◌<◌, ◌^◌, ◌≤ℤ◌, neg_ℤ, pos, IfOk, IfSome, length, map, slice_set};
ghost use Rattle.wc_nestsolve.specs.Inner.Potentials.{potential_of, raised_by};
ghost use Rattle.wc_nestsolve.specs.Inner.Raising.{AreBelow, AreRaisable, IsRaised, raised_at};

use crate::found::Found;
use std::alloc::{AllocError, Global};

fn potential(found: Option<Found>) -> Option<i128>
    requires { IfSome found (λ f. f.value < 2 ^ 101) }
    ensures { result ≡ potential_of found }
{
    match found {
        Some(found) => Some(found.value as i128),
        None => None,
    }
}

/// What the ways to the exit are worth.
pub fn first_potentials(
    alloc: Global,
    best: &[Option<Found>],
) -> Result<Vec<Option<i128>>, AllocError>
    requires { AreBelow best.now }
    ensures { IfOk result (λ v. v.items ≡ map potential_of best.now) }
{
    let mut u = Vec::with_capacity(alloc, best.len())?;
    for found in best {
        u.push(potential(*found))?;
    }
    Ok(u)
}

fn raised(old: Option<i128>, found: Option<Found>, from: i128) -> Option<i128>
    requires small { IfSome found (λ f. f.value < 2 ^ 101) }
    requires low { neg_ℤ (pos (2 ^ 120)) ≤ℤ from }
    requires high { from ≤ℤ pos (2 ^ 120) }
    ensures { result ≡ raised_by old found from }
{
    let Some(found) = found else {
        return old;
    };
    let through = found.value as i128 + from;
    match old {
        Some(value) => Some(if through < value { value } else { through }),
        None => Some(through),
    }
}

fn raise_one(node: u32, best: &[Option<Found>], from: i128, u: &mut Vec<Option<i128>>)
    requires known { node < length best.now }
    requires known_u { node < length u.old.items }
    requires small { AreBelow best.now }
    requires low { neg_ℤ (pos (2 ^ 120)) ≤ℤ from }
    requires high { from ≤ℤ pos (2 ^ 120) }
    ensures { u.new.items ≡ slice_set u.old.items node (raised_at best.now from node u.old.items) }
{
    let old = u[node as usize];
    u[node as usize] = raised(old, best[node as usize], from);
}

/// Raises the nodes of a loop by the way to its head and on from there.
pub fn raise(class: &[u32], best: &[Option<Found>], from: i128, u: &mut Vec<Option<i128>>)
    requires class { AreRaisable class.now best.now u.old.items }
    requires small { AreBelow best.now }
    requires low { neg_ℤ (pos (2 ^ 120)) ≤ℤ from }
    requires high { from ≤ℤ pos (2 ^ 120) }
    ensures { IsRaised class.now (length class.now) best.now from u.old.items u.new.items }
{
    for node in class {
        raise_one(*node, best, from, u);
    }
}
