ghost use Rattle.std.specs.Prelude.{◌≡◌, ◌<◌, ◌≤◌, ◌+◌, ◌*ℤ◌, ◌++◌, ◌∷◌, [], All, IfOk, IfSome, List, Option, Some, ℤ, drop, get_or, if◌then◌else◌, length, pos};
ghost use Rattle.std.specs.Option.{option_and_then, option_map};
ghost use Rattle.wc_model.specs.Flow.Certificates.{factor_of};
ghost use Rattle.wc_model.specs.Flow.Exact.{exact, negate_exact};
ghost use Rattle.wc_model.specs.Flow.Places.{is_listed};
ghost use Rattle.wc_model.specs.Flow.RowResults.{RowPrices, back_terms, chain_potentials, entry_terms, inner_potentials, limit_terms, step_potential, sum_terms};
ghost use Rattle.wc_model.specs.Flow.Systems.{IsSystem};
ghost use Rattle.wc_model.specs.Flow.Tableaus.{no_step};
ghost use Rattle.wc_simplex.specs.Inner.Columns.{IsChain, IsColumn};
ghost use Rattle.wc_simplex.specs.Inner.Prices.{ArePriced, IsKnownAs, Learns, ahead_in, loops_and_limits};

use crate::known_prices::KnownPrices;
use crate::numbers::{negated, product, sum};
use std::alloc::{AllocError, Global};
use wc_model::{System, SystemLimit, SystemLoop, SystemStep, Table};

fn is_listed(place: usize, places: &[u32]) -> bool
    ensures { result ≡ is_listed place places.now }
{
    for other in places {
        if place == *other as usize {
            return true;
        }
    }
    false
}

fn factor_of(node: u32, factors: &[(u32, i128)]) -> i128
    ensures { result ≡ factor_of node factors.now }
{
    for place in 0..factors.len() {
        let (other, factor) = factors[place];
        if other == node {
            return factor;
        }
    }
    0
}

// Less a loop's price, where the step is one of its back steps.
fn less_one(acc: &i128, is_back: bool, price: &i128) -> Option<i128>
    ensures { result ≡ sum_terms acc.now (if is_back then negate_exact price.now ∷ [] else []) }
{
    if is_back {
        sum(acc, &negated(price)?)
    } else {
        Some(*acc)
    }
}

fn less_back(acc: i128, place: usize, loops: &[SystemLoop], prices: &[i128]) -> Option<i128>
    requires { length prices.now ≡ length loops.now }
    ensures { (ts : List (Option ℤ)) → sum_terms acc (back_terms place loops.now prices.now ++ ts) ≡ option_and_then (λ sum. sum_terms sum ts) result }
{
    let mut acc = acc;
    for index in 0..loops.len() {
        let is_back = is_listed(place, loops[index].back.items());
        acc = less_one(&acc, is_back, &prices[index])?;
    }
    Some(acc)
}

// Plus bound times a loop's price, where the step is one of its entry steps.
fn with_one(acc: &i128, is_entry: bool, bound: u32, price: &i128) -> Option<i128>
    ensures { result ≡ sum_terms acc.now (if is_entry then exact (pos bound *ℤ price.now) ∷ [] else []) }
{
    if is_entry {
        sum(acc, &product(&(bound as i128), price)?)
    } else {
        Some(*acc)
    }
}

fn with_entry(acc: i128, place: usize, loops: &[SystemLoop], prices: &[i128]) -> Option<i128>
    requires { length prices.now ≡ length loops.now }
    ensures { (ts : List (Option ℤ)) → sum_terms acc (entry_terms place loops.now prices.now ++ ts) ≡ option_and_then (λ sum. sum_terms sum ts) result }
{
    let mut acc = acc;
    for index in 0..loops.len() {
        let is_entry = is_listed(place, loops[index].entry.items());
        acc = with_one(&acc, is_entry, loops[index].bound, &prices[index])?;
    }
    Some(acc)
}

// Less factor times a limit's price.
fn less_limit(acc: &i128, factor: &i128, price: &i128) -> Option<i128>
    ensures { result ≡ sum_terms acc.now (option_and_then negate_exact (exact (factor.now *ℤ price.now)) ∷ []) }
{
    let term = product(factor, price)?;
    let turned = negated(&term)?;
    sum(acc, &turned)
}

fn less_limits(acc: i128, node: u32, limits: &[SystemLimit], prices: &[i128]) -> Option<i128>
    requires { length prices.now ≡ length limits.now }
    ensures { result ≡ sum_terms acc (limit_terms node limits.now prices.now) }
{
    let mut acc = acc;
    for index in 0..limits.len() {
        let factor = factor_of(node, limits[index].factors.items());
        acc = less_limit(&acc, &factor, &prices[index])?;
    }
    Some(acc)
}

// Plus the cost times the scale.
fn with_cost(ahead: &i128, cost: u64, scale: &i128) -> Option<i128>
    ensures { result ≡ sum_terms ahead.now (exact (pos cost *ℤ scale.now) ∷ []) }
{
    let cost = product(&(cost as i128), scale)?;
    sum(ahead, &cost)
}

// The potential where a step begins, from that where it leads.
fn step_potential(
    system: &System,
    scale: &i128,
    prices: &KnownPrices,
    ahead: &i128,
    place: usize,
) -> Option<i128>
    requires place { place < length system.now.steps }
    requires loops { length prices.now.loops.items ≡ length system.now.loops }
    requires limits { length prices.now.limits.items ≡ length system.now.limits }
    ensures { result ≡ step_potential system.now scale.now (loops_and_limits prices.now) ahead.now place (get_or system.now.steps place no_step) }
{
    let step = &system.steps.items()[place];
    let acc = with_cost(ahead, step.cost, scale)?;
    let acc = less_back(acc, place, system.loops.items(), &prices.loops)?;
    let acc = with_entry(acc, place, system.loops.items(), &prices.loops)?;
    less_limits(acc, step.source, system.limits.items(), &prices.limits)
}

fn ahead(nodes: &[i128], target: Option<u32>) -> i128
    requires { IfSome target (λ q. q < length nodes.now) }
    ensures { result ≡ ahead_in nodes.now target }
{
    match target {
        None => 0,
        Some(node) => nodes[node as usize],
    }
}

// The potentials inside a column, from its end backwards.
fn chain(
    system: &System,
    scale: &i128,
    prices: &KnownPrices,
    column: &[usize],
    inner: &mut Vec<i128>,
) -> Option<()>
    requires system { IsSystem system.now }
    requires column { IsColumn (length system.now.steps) column.now }
    requires chain { IsChain system.now column.now }
    requires nodes { length prices.now.nodes.items ≡ system.now.nodes }
    requires loops { length prices.now.loops.items ≡ length system.now.loops }
    requires limits { length prices.now.limits.items ≡ length system.now.limits }
    requires inner { length inner.old.items ≡ system.now.nodes }
    ensures kept { length inner.new.items ≡ length inner.old.items }
    ensures learnt { (known : RowPrices) → ArePriced system.now known prices.now → Learns system.now.nodes (chain_potentials system.now scale.now known (drop 1 column.now)) result inner.old.items inner.new.items }
{
    let steps = system.steps.items();
    let mut next = ahead(&prices.nodes, steps[column[column.len() - 1]].target);
    for place in (1..column.len()).rev() {
        next = step_potential(system, scale, prices, &next, column[place])?;
        inner[steps[column[place]].source as usize] = next;
    }
    Some(())
}

/// The potentials of the nodes that are passed through, 0 at the others.
pub fn inner_potentials(
    alloc: Global,
    system: &System,
    scale: &i128,
    prices: &KnownPrices,
    columns: &[Table<usize>],
) -> Result<Option<Vec<i128>>, AllocError>
    requires system { IsSystem system.now }
    requires columns { All (IsColumn (length system.now.steps)) columns.now }
    requires chains { All (IsChain system.now) columns.now }
    requires nodes { length prices.now.nodes.items ≡ system.now.nodes }
    requires loops { length prices.now.loops.items ≡ length system.now.loops }
    requires limits { length prices.now.limits.items ≡ length system.now.limits }
    ensures counted { IfOk result (λ o. IfSome o (λ v. length v.items ≡ system.now.nodes)) }
    ensures inner { IfOk result (λ o. (known : RowPrices) → ArePriced system.now known prices.now → IsKnownAs system.now.nodes (inner_potentials system.now scale.now known columns.now) (option_map (λ v. v.items) o)) }
{
    let mut inner = vec![in alloc; 0; system.nodes as usize]?;
    for place in (0..columns.len()).rev() {
        match chain(system, scale, prices, columns[place].items(), &mut inner) {
            None => return Ok(None),
            Some(()) => {}
        }
    }
    Ok(Some(inner))
}
