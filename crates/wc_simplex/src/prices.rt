ghost use Rattle.std.specs.Prelude.{◌≡◌, ◌<◌, ◌≤◌, ◌+◌, ◌^◌, ◌-ℤ◌, IfOk, drop, length, take};
ghost use Rattle.std.specs.Option.{is_some, option_and_then, option_map};
ghost use Rattle.wc_model.specs.Flow.Cells.{row_nodes};
ghost use Rattle.wc_model.specs.Flow.Exact.{exact};
ghost use Rattle.wc_model.specs.Flow.RowResults.{prices_from, signed, split_prices};
ghost use Rattle.wc_simplex.specs.Inner.Columns.{ArePassed};
ghost use Rattle.wc_simplex.specs.Inner.Prices.{ArePriced, node_price, node_prices, next_row};

use crate::known_prices::KnownPrices;
use crate::numbers::{difference, negated};
use crate::rows::Row;
use std::alloc::{AllocError, Global};
use wc_model::System;

fn row_price(entry: &i128, base: &i128, turned: bool) -> Option<i128>
    ensures { result ≡ option_and_then (signed turned) (exact (entry.now -ℤ base.now)) }
{
    let price = difference(entry, base)?;
    if turned { negated(&price) } else { Some(price) }
}

/// The price of each row: the goal row's entry at its artificial column less `base`. Its sign is turned where the row
/// was negated.
pub fn prices_of_rows(
    alloc: Global,
    goal: &Row,
    real: usize,
    base: &i128,
    signs: &[bool],
) -> Result<Option<Vec<i128>>, AllocError>
    requires few { real + length signs.now < length goal.now }
    requires small { length goal.now < 2 ^ 33 }
    ensures { IfOk result (λ o. option_map (λ v. v.items) o ≡ prices_from goal.now real base.now signs.now) }
{
    let mut prices = Vec::with_capacity(alloc, signs.len())?;
    for place in 0..signs.len() {
        match row_price(&goal.entry(real + place), base, signs[place]) {
            None => return Ok(None),
            Some(price) => prices.push(price)?,
        }
    }
    Ok(Some(prices))
}

// The price of a node, where `next` is the next node's row.
fn node_price(passed: Option<usize>, all: &[i128], next: usize) -> i128
    ensures { result ≡ node_price passed all.now next }
{
    match passed {
        Some(_) => 0,
        None => if next < all.len() { all[next] } else { 0 },
    }
}

fn next_row(passed: Option<usize>, next: usize) -> usize
    requires { next + 1 < 2 ^ 64 }
    ensures { result ≡ next_row passed next }
{
    match passed {
        Some(_) => next,
        None => next + 1,
    }
}

fn node_prices(
    alloc: Global,
    passed: &[Option<usize>],
    all: &[i128],
) -> Result<Vec<i128>, AllocError>
    ensures { IfOk result (λ v. v.items ≡ node_prices passed.now all.now 0) }
{
    let mut prices = Vec::with_capacity(alloc, passed.len())?;
    let mut next = 0;
    for node in 0..passed.len() {
        prices.push(node_price(passed[node], all, next))?;
        next = next_row(passed[node], next);
    }
    Ok(prices)
}

// So many numbers from a place on.
fn part(alloc: Global, all: &[i128], first: usize, count: usize) -> Result<Vec<i128>, AllocError>
    requires { first + count ≤ length all.now }
    ensures { IfOk result (λ v. v.items ≡ take count (drop first all.now)) }
{
    all[first..first + count].to_vec(alloc)
}

/// The prices of the rows by what the rows stand for.
pub fn split(
    alloc: Global,
    system: &System,
    passed: &[Option<usize>],
    all: &[i128],
) -> Result<KnownPrices, AllocError>
    requires passed { ArePassed system.now passed.now }
    requires all { length all.now ≡ length (row_nodes system.now) + length system.now.loops + length system.now.limits }
    ensures { IfOk result (ArePriced system.now (split_prices system.now all.now)) }
{
    let loops = system.loops.items().len();
    let limits = system.limits.items().len();
    let rows = all.len() - limits - loops;
    Ok(KnownPrices {
        nodes: node_prices(alloc, passed, all)?,
        loops: part(alloc, all, rows, loops)?,
        limits: part(alloc, all, rows + loops, limits)?,
    })
}
