ghost use Rattle.std.specs.Prelude.{◌≡◌, ◌<◌, ◌≤◌, ◌+◌, All, IfOk, length, map, if◌then◌else◌, pos};
ghost use Rattle.std.specs.List.{range_with_len};
ghost use Rattle.std.specs.Option.{is_some};
ghost use Rattle.wc_model.specs.Flow.Cells.{row_nodes};
ghost use Rattle.wc_model.specs.Flow.RowMachine.{entry};
ghost use Rattle.wc_model.specs.Flow.RowResults.{ray_of, solution_of};
ghost use Rattle.wc_model.specs.Flow.Systems.{IsSystem};
ghost use Rattle.wc_simplex.specs.Inner.Columns.{ArePassed, IsChain, IsColumn};
ghost use Rattle.wc_simplex.specs.Inner.Counts.{IsReadable};
ghost use Rattle.wc_simplex.specs.Inner.Machines.{seen, shape_of};
ghost use Rattle.wc_simplex.specs.Inner.Prices.{IsEnd, known_ray, merged, priced_ray, solution_with};
ghost use Rattle.wc_simplex.specs.Inner.Starts.{start_as};

use crate::counts::{Counts, optimum};
use crate::potentials::inner_potentials;
use crate::prices::{prices_of_rows, split};
use crate::rows::Row;
use crate::start::Start;
use std::alloc::{AllocError, Global};
use wc_model::{Ray, Solution, System, Table};

fn choose(passed: Option<usize>, node: &i128, inner: &i128) -> i128
    ensures { result ≡ (if is_some passed then inner.now else node.now) }
{
    match passed {
        Some(_) => *inner,
        None => *node,
    }
}

// The potentials of all nodes.
fn merge(
    alloc: Global,
    passed: &[Option<usize>],
    nodes: &[i128],
    inner: &[i128],
) -> Result<Vec<i128>, AllocError>
    requires nodes { length nodes.now ≡ length passed.now }
    requires inner { length inner.now ≡ length passed.now }
    ensures { IfOk result (λ v. v.items ≡ map (merged passed.now nodes.now inner.now) (range_with_len 0 (length passed.now))) }
{
    let mut merged = Vec::with_capacity(alloc, passed.len())?;
    for node in 0..passed.len() {
        merged.push(choose(passed[node], &nodes[node], &inner[node]))?;
    }
    Ok(merged)
}

// The potentials and prices that are known from the prices of the rows.
fn potentials(
    alloc: Global,
    system: &System,
    columns: &[Table<usize>],
    passed: &[Option<usize>],
    scale: &i128,
    all: &[i128],
) -> Result<Option<Ray>, AllocError>
    requires system { IsSystem system.now }
    requires passed { ArePassed system.now passed.now }
    requires columns { All (IsColumn (length system.now.steps)) columns.now }
    requires chains { All (IsChain system.now) columns.now }
    requires all { length all.now ≡ length (row_nodes system.now) + length system.now.loops + length system.now.limits }
    ensures { IfOk result (λ o. o ≡ known_ray system.now columns.now scale.now all.now) }
{
    let prices = split(alloc, system, passed, all)?;
    match inner_potentials(alloc, system, scale, &prices, columns)? {
        None => Ok(None),
        Some(inner) => Ok(Some(Ray {
            u: Table::new(merge(alloc, passed, &prices.nodes, &inner)?),
            v: Table::new(prices.loops),
            w: Table::new(prices.limits),
        })),
    }
}

// What a goal row says of the rows, each less `base`.
fn priced(
    alloc: Global,
    system: &System,
    columns: &[Table<usize>],
    passed: &[Option<usize>],
    end: &Start,
    goal: &Row,
    base: &i128,
    scale: &i128,
) -> Result<Option<Ray>, AllocError>
    requires system { IsSystem system.now }
    requires passed { ArePassed system.now passed.now }
    requires columns { All (IsColumn (length system.now.steps)) columns.now }
    requires chains { All (IsChain system.now) columns.now }
    requires end { IsEnd system.now end.now }
    requires goal { length goal.now ≡ end.now.machine.right + 2 }
    ensures { IfOk result (λ o. o ≡ priced_ray system.now columns.now goal.now end.now.machine.real base.now scale.now end.now.negated.items) }
{
    match prices_of_rows(alloc, goal, end.machine.real, base, &end.negated)? {
        None => Ok(None),
        Some(all) => potentials(alloc, system, columns, passed, scale, &all),
    }
}

fn with_counts(prices: Ray, counts: Counts, scale: i128) -> Solution
    ensures { result ≡ solution_with prices counts scale }
{
    let Ray { u, v, w } = prices;
    let Counts { num, den, x } = counts;
    Solution {
        num,
        den,
        x: Table::new(x),
        scale,
        u,
        v,
        w,
    }
}

/// The solution that the last tableau shows.
pub fn solution(
    alloc: Global,
    system: &System,
    columns: &[Table<usize>],
    passed: &[Option<usize>],
    end: &Start,
) -> Result<Option<Solution>, AllocError>
    requires system { IsSystem system.now }
    requires passed { ArePassed system.now passed.now }
    requires columns { All (IsColumn (length system.now.steps)) columns.now }
    requires chains { All (IsChain system.now) columns.now }
    requires end { IsEnd system.now end.now }
    requires readable { IsReadable (shape_of end.now.machine) (seen end.now.machine) }
    requires few { length columns.now ≤ end.now.machine.right }
    ensures { IfOk result (λ o. o ≡ solution_of system.now columns.now (start_as end.now) (seen end.now.machine)) }
{
    let machine = &end.machine;
    let scale = machine.z.entry(machine.right + 1);
    match priced(alloc, system, columns, passed, end, &machine.z, &0, &scale)? {
        None => Ok(None),
        Some(prices) => match optimum(alloc, system, columns, machine)? {
            None => Ok(None),
            Some(counts) => Ok(Some(with_counts(prices, counts, scale))),
        },
    }
}

/// The ray that the last tableau of the first phase shows.
pub fn ray(
    alloc: Global,
    system: &System,
    columns: &[Table<usize>],
    passed: &[Option<usize>],
    end: &Start,
) -> Result<Option<Ray>, AllocError>
    requires system { IsSystem system.now }
    requires passed { ArePassed system.now passed.now }
    requires columns { All (IsColumn (length system.now.steps)) columns.now }
    requires chains { All (IsChain system.now) columns.now }
    requires end { IsEnd system.now end.now }
    ensures { IfOk result (λ o. o ≡ ray_of system.now columns.now (start_as end.now) (seen end.now.machine)) }
{
    let machine = &end.machine;
    let own = machine.w.entry(machine.right + 1);
    priced(alloc, system, columns, passed, end, &machine.w, &own, &0)
}
