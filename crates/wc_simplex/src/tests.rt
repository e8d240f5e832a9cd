ghost use Rattle.std.specs.Prelude.{◌≡◌, ◌<◌, ◌≤◌, ◌^◌, ◌∷◌, [], All, IfOk, None, Some, length, map, pos};
ghost use Rattle.std.specs.List.{range_with_len};
ghost use Rattle.wc_model.specs.Flow.Cells.{cells_of};
ghost use Rattle.wc_model.specs.Flow.Certificates.{ArePrices, Prices, scaled};
ghost use Rattle.wc_model.specs.Flow.Ends.{system_ends};
ghost use Rattle.wc_model.specs.Flow.Systems.{IsSystem, named_by};
ghost use Rattle.wc_model.specs.Flow.Walks.{Joins};
ghost use Rattle.wc_model.specs.Program.Reaching.{IsLive};

mod machines;

use crate::{SolveFault, solve};
use std::alloc::{AllocError, Global};
use std::test::Fail;
use wc_dual::{Check, check, check_ray};
use wc_model::{Solution, System, SystemLimit, SystemLoop, SystemStep, Table};

fn step(source: u32, target: Option<u32>, cost: u64) -> SystemStep
    ensures { result ≡ record { source = source; target = target; cost = cost } }
{
    SystemStep {
        source,
        target,
        cost,
    }
}

// A loop of nodes 1, 2 and 3, where node 2 may be left out, and then a loop of nodes 4 and 5.
fn steps(alloc: Global, costs: &[u64; 9]) -> Result<Vec<SystemStep>, AllocError>
    ensures sources { IfOk result (λ v. map (λ t. t.source) v.items ≡ 0 ∷ 1 ∷ 1 ∷ 2 ∷ 3 ∷ 3 ∷ 4 ∷ 5 ∷ 5 ∷ []) }
    ensures targets { IfOk result (λ v. map (λ t. t.target) v.items ≡ Some 1 ∷ Some 2 ∷ Some 3 ∷ Some 3 ∷ Some 1 ∷ Some 4 ∷ Some 5 ∷ Some 4 ∷ None ∷ []) }
{
    [
        step(0, Some(1), costs[0]),
        step(1, Some(2), costs[1]),
        step(1, Some(3), costs[2]),
        step(2, Some(3), costs[3]),
        step(3, Some(1), costs[4]),
        step(3, Some(4), costs[5]),
        step(4, Some(5), costs[6]),
        step(5, Some(4), costs[7]),
        step(5, None, costs[8]),
    ]
    .to_vec(alloc)
}

fn one_loop(
    alloc: Global,
    head: u32,
    bound: u32,
    back: u32,
    entry: u32,
) -> Result<SystemLoop, AllocError>
    ensures { IfOk result (λ l. l ≡ record { head = head; bound = bound; back = back ∷ []; entry = entry ∷ [] }) }
{
    Ok(SystemLoop {
        head,
        bound,
        back: Table::new([back].to_vec(alloc)?),
        entry: Table::new([entry].to_vec(alloc)?),
    })
}

fn loops(alloc: Global, first: u32, second: u32) -> Result<Vec<SystemLoop>, AllocError>
    ensures items { IfOk result (λ v. v.items ≡ record { head = 1; bound = first; back = 4 ∷ []; entry = 0 ∷ [] } ∷ record { head = 4; bound = second; back = 7 ∷ []; entry = 5 ∷ [] } ∷ []) }
    ensures small { IfOk result (λ _. (first < 2 ^ 32) × (second < 2 ^ 32)) }
{
    let first = one_loop(alloc, 1, first, 4, 0)?;
    let second = one_loop(alloc, 4, second, 7, 5)?;
    let mut loops = Vec::new(alloc);
    loops.push(first)?;
    loops.push(second)?;
    Ok(loops)
}

// The factors of all nodes.
fn limit(alloc: Global, constant: i128, factors: &[i128; 6]) -> Result<SystemLimit, AllocError>
    ensures { IfOk result (λ l. named_by l ≡ range_with_len 0 6) }
{
    let mut named = Vec::new(alloc);
    for node in 0..6 {
        named.push((node as u32, factors[node]))?;
    }
    Ok(SystemLimit {
        constant,
        factors: Table::new(named),
    })
}

fn limits(alloc: Global, stated: &[(i128, [i128; 6])]) -> Result<Vec<SystemLimit>, AllocError>
    ensures named { IfOk result (λ v. All (λ l. named_by l ≡ range_with_len 0 6) v.items) }
    ensures counted { IfOk result (λ v. length v.items ≡ length stated.now) }
{
    let mut made = Vec::new(alloc);
    for place in 0..stated.len() {
        made.push(limit(alloc, stated[place].0, &stated[place].1)?)?;
    }
    Ok(made)
}

fn two_loops(
    alloc: Global,
    first: u32,
    second: u32,
    costs: &[u64; 9],
    limits: Vec<SystemLimit>,
) -> Result<System, AllocError>
    requires named { All (λ l. named_by l ≡ range_with_len 0 6) limits.items }
    requires few { length limits.items ≤ 4 }
    ensures system { IfOk result IsSystem }
    ensures small { IfOk result (λ s. cells_of s ≤ 250000) }
    ensures live { IfOk result (λ s. (p : _) → p < s.nodes → IsLive (Joins system_ends s.steps) s.start p) }
    ensures priced { IfOk result (λ s. (prices : Prices) × ArePrices s (scaled (pos 1)) prices) }
{
    let steps = steps(alloc, costs)?;
    let loops = loops(alloc, first, second)?;
    Ok(System {
        nodes: 6,
        steps: Table::new(steps),
        start: 0,
        loops: Table::new(loops),
        limits: Table::new(limits),
    })
}

// The fault's number, or 0 with the value; 99 where the certificate doesn't hold.
fn shown(system: &System, found: &Result<Solution, SolveFault>) -> (u8, i128, i128)
    requires { IsSystem system.now }
{
    match found {
        Ok(solution) => match check(system, solution) {
            Check::Yes => (0, solution.num, solution.den),
            _ => (99, 0, 0),
        },
        Err(SolveFault::NoPath(ray)) => match check_ray(system, ray) {
            Check::Yes => (43, 0, 0),
            _ => (99, 0, 0),
        },
        Err(SolveFault::NumberLimit) => (40, 0, 0),
        Err(SolveFault::PivotLimit) => (42, 0, 0),
        Err(SolveFault::Memory(_)) => (98, 0, 0),
    }
}

fn solved(
    alloc: Global,
    bounds: [u32; 2],
    costs: &[u64; 9],
    stated: &[(i128, [i128; 6])],
) -> Result<(u8, i128, i128), Fail> {
    if stated.len() > 4 {
        return Err(Fail::new("too many limits"));
    }
    let system = two_loops(alloc, bounds[0], bounds[1], costs, limits(alloc, stated)?)?;
    let found = solve(alloc, &system);
    Ok(shown(&system, &found))
}

// The last loop alone has costs: the head 1, the step back 1, before and after it 1 and 2.
const COUNTDOWN: [u64; 9] = [0, 0, 0, 0, 0, 1, 1, 1, 2];

// The first loop alone has costs: the head 2, node 2 1, the end 2, before and after it 1 and 1.
const BRANCH: [u64; 9] = [1, 2, 2, 1, 2, 2, 0, 0, 1];

const ONES: [u64; 9] = [1, 1, 1, 1, 1, 1, 1, 1, 1];

const MOST: i128 = i128::MAX;

#[test]
fn the_optimum_under_limits(rt: HostRuntime) -> Result<(), Fail> {
    let rows: [([u32; 2], [u64; 9], &[(i128, [i128; 6])], (u8, i128, i128)); 15] = [
        // the head at most five times: 1 + 5 + 4 + 2
        ([0, 9], COUNTDOWN, &[(5, [0, 0, 0, 0, 1, 0])], (0, 12, 1)),
        // at most three visits, where seven are stated
        ([0, 2], COUNTDOWN, &[(-7, [0, 0, 0, 0, -1, 0])], (43, 0, 0)),
        // the branch once and a half: 1 + 4 + 3/2 + 4 + 1
        ([1, 0], BRANCH, &[(3, [0, 0, 2, 0, 0, 0])], (0, 23, 2)),
        // the branch twice, as often as the head: 1 + 4 + 2 + 4 + 1
        ([1, 0], BRANCH, &[(0, [0, -1, 1, 0, 0, 0])], (0, 12, 1)),
        // twice the same limit
        (
            [0, 9],
            COUNTDOWN,
            &[(5, [0, 0, 0, 0, 1, 0]), (5, [0, 0, 0, 0, 1, 0])],
            (0, 12, 1),
        ),
        // the first head at most as often as the second one, which is met five times: 1 + 10 + 4 + 1 + 5 + 4 + 1
        ([9, 4], ONES, &[(0, [0, 1, 0, 0, -1, 0])], (0, 26, 1)),
        // both heads at most seven times: six rounds of the dearer loop, one of the other: 1 + 12 + 5 + 1 + 1 + 1
        ([9, 9], ONES, &[(7, [0, 1, 0, 0, 1, 0])], (0, 21, 1)),
        // a constant that holds: 1 + 10 + 9 + 2, and one that doesn't
        ([0, 9], COUNTDOWN, &[(0, [0, 0, 0, 0, 0, 0])], (0, 22, 1)),
        ([0, 9], COUNTDOWN, &[(-1, [0, 0, 0, 0, 0, 0])], (43, 0, 0)),
        // at least three visits, which is a negated row: 1 + 10 + 9 + 2
        ([0, 9], COUNTDOWN, &[(-3, [0, 0, 0, 0, -1, 0])], (0, 22, 1)),
        // exactly three and a half visits: 1 + 7/2 + 5/2 + 2
        (
            [0, 9],
            COUNTDOWN,
            &[(7, [0, 0, 0, 0, 2, 0]), (-7, [0, 0, 0, 0, -2, 0])],
            (0, 18, 2),
        ),
        // at most twice and at least three times
        (
            [9, 9],
            ONES,
            &[(2, [0, 1, 0, 0, 0, 0]), (-3, [0, -1, 0, 0, 0, 0])],
            (43, 0, 0),
        ),
        // in the start: a side that can't be negated, factors of one column, a factor beside the 1 of a step back
        ([0, 9], ONES, &[(i128::MIN, [0, 0, 0, 0, 0, 0])], (40, 0, 0)),
        ([0, 9], ONES, &[(1, [0, MOST, MOST, 0, 0, 0])], (40, 0, 0)),
        ([0, 9], ONES, &[(1, [0, 0, 0, MOST, 0, 0])], (40, 0, 0)),
    ];
    for (bounds, costs, stated, wanted) in &rows {
        let found = solved(rt.alloc(), *bounds, costs, *stated)?;
        assert_eq!(rt; found, *wanted);
    }
    Ok(())
}
