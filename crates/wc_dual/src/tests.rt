ghost use Rattle.std.specs.Prelude.{◌≡◌, ◌∷◌, [], All, IfOk, pos};
ghost use Rattle.wc_model.specs.Flow.Systems.{IsSystem};

use crate::{Check, check, check_at_once, check_ray};
use std::alloc::{AllocError, Global};
use std::test::Fail;
use wc_model::{Ray, Solution, System, SystemLimit, SystemLoop, SystemStep, Table};

// A loop round the start with at most one step back, and inside of it a loop of one node with at most two an entry.
const STEPS: [SystemStep; 4] = [
    SystemStep {
        source: 0,
        target: Some(1),
        cost: 1,
    },
    SystemStep {
        source: 1,
        target: Some(1),
        cost: 2,
    },
    SystemStep {
        source: 1,
        target: Some(0),
        cost: 3,
    },
    SystemStep {
        source: 1,
        target: None,
        cost: 4,
    },
];

fn outer(alloc: Global) -> Result<SystemLoop, AllocError>
    ensures { IfOk result (λ l. l ≡ record { head = 0; bound = 1; back = 2 ∷ []; entry = [] }) }
{
    Ok(SystemLoop {
        head: 0,
        bound: 1,
        back: Table::new([2].to_vec(alloc)?),
        entry: Table::new(Vec::new(alloc)),
    })
}

fn inner(alloc: Global) -> Result<SystemLoop, AllocError>
    ensures { IfOk result (λ l. l ≡ record { head = 1; bound = 2; back = 1 ∷ []; entry = 0 ∷ [] }) }
{
    Ok(SystemLoop {
        head: 1,
        bound: 2,
        back: Table::new([1].to_vec(alloc)?),
        entry: Table::new([0].to_vec(alloc)?),
    })
}

// At most `visits` of the node inside.
fn limits(alloc: Global, visits: i128) -> Result<Vec<SystemLimit>, AllocError>
    ensures { IfOk result (λ v. All (λ l. l.factors ≡ (1, pos 1) ∷ []) v.items) }
{
    let mut factors = Vec::new(alloc);
    factors.push((1, 1))?;
    let mut limits = Vec::new(alloc);
    limits.push(SystemLimit {
        constant: visits,
        factors: Table::new(factors),
    })?;
    Ok(limits)
}

fn two_loops(alloc: Global, visits: i128) -> Result<System, AllocError>
    ensures { IfOk result IsSystem }
{
    let steps = STEPS.to_vec(alloc)?;
    let outer = outer(alloc)?;
    let inner = inner(alloc)?;
    let mut loops = Vec::new(alloc);
    loops.push(outer)?;
    loops.push(inner)?;
    let limits = limits(alloc, visits)?;
    Ok(System {
        nodes: 2,
        steps: Table::new(steps),
        start: 0,
        loops: Table::new(loops),
        limits: Table::new(limits),
    })
}

// The numbers of a solution.
#[derive(Clone, Copy)]
struct Numbers {
    visits: i128,
    num: i128,
    den: i128,
    x: [i128; 4],
    scale: i128,
    u: [i128; 2],
    v: [i128; 2],
    w: i128,
}

// Twice round the outer loop, with four rounds of the inner one: nothing is left to gain.
const FREE: Numbers = Numbers {
    visits: 6,
    num: 17,
    den: 1,
    x: [2, 4, 1, 1],
    scale: 1,
    u: [9, 4],
    v: [8, 2],
    w: 0,
};

// Two visits inside: the outer loop's round is worth more than the inner one's.
const SHORT: Numbers = Numbers {
    visits: 2,
    num: 9,
    den: 1,
    x: [2, 0, 1, 1],
    scale: 1,
    u: [1, 0],
    v: [0, 0],
    w: 4,
};

const HOLDING: [Numbers; 3] = [
    FREE,
    SHORT,
    // halves and thirds
    Numbers {
        num: 18,
        den: 2,
        x: [4, 0, 2, 2],
        scale: 3,
        u: [3, 0],
        w: 12,
        ..SHORT
    },
];

// Each breaks a line.
const BROKEN: [Numbers; 20] = [
    // the flow at the start, at the other node, and no flow at all
    Numbers {
        x: [3, 0, 1, 1],
        ..SHORT
    },
    Numbers {
        x: [2, 0, 1, 0],
        ..SHORT
    },
    Numbers {
        num: 0,
        x: [0, 0, 0, 0],
        u: [0, 0],
        w: 0,
        ..SHORT
    },
    // one round more of either loop, one visit more
    Numbers {
        visits: 9,
        num: 19,
        x: [2, 5, 1, 1],
        ..FREE
    },
    Numbers {
        visits: 9,
        num: 21,
        x: [3, 4, 2, 1],
        ..FREE
    },
    Numbers { visits: 5, ..FREE },
    // each of the four steps worth less than its cost
    Numbers { u: [8, 4], ..FREE },
    Numbers { v: [8, 1], ..FREE },
    Numbers { v: [7, 2], ..FREE },
    Numbers { u: [9, 3], ..FREE },
    Numbers { w: 3, ..SHORT },
    // a value of neither side
    Numbers { num: 16, ..FREE },
    Numbers { u: [10, 5], ..FREE },
    // numbers below their least
    Numbers {
        den: 0,
        num: 0,
        x: [0, 0, 0, 0],
        ..FREE
    },
    Numbers {
        scale: 0,
        num: 9,
        u: [0, 0],
        w: 0,
        ..SHORT
    },
    Numbers {
        x: [2, -1, 1, 1],
        num: 7,
        ..SHORT
    },
    Numbers {
        v: [-1, 0],
        ..SHORT
    },
    Numbers {
        v: [1, -1],
        ..SHORT
    },
    Numbers { w: -1, ..FREE },
    Numbers {
        den: i128::MAX,
        x: [0, 0, 0, 0],
        ..FREE
    },
];

// Beyond 128 bits: a balance, a difference, a product, a line.
const WIDE: [Numbers; 4] = [
    Numbers {
        x: [0, 0, i128::MAX, i128::MAX],
        ..FREE
    },
    Numbers {
        u: [i128::MAX, -1],
        ..FREE
    },
    Numbers {
        v: [8, i128::MAX],
        ..FREE
    },
    Numbers {
        w: i128::MAX,
        ..FREE
    },
];

fn solution(alloc: Global, numbers: &Numbers) -> Result<Solution, AllocError> {
    Ok(Solution {
        num: numbers.num,
        den: numbers.den,
        x: Table::new(numbers.x.to_vec(alloc)?),
        scale: numbers.scale,
        u: Table::new(numbers.u.to_vec(alloc)?),
        v: Table::new(numbers.v.to_vec(alloc)?),
        w: Table::new([numbers.w].to_vec(alloc)?),
    })
}

// What both checks of a solution answer.
fn answers(alloc: Global, numbers: &Numbers) -> Result<[Check; 2], AllocError> {
    let system = two_loops(alloc, numbers.visits)?;
    let solution = solution(alloc, numbers)?;
    let at_once = check_at_once(alloc, &system, &solution)?;
    Ok([check(&system, &solution), at_once])
}

#[test]
fn a_solution_holds_as_long_as_no_line_is_broken(rt: HostRuntime) -> Result<(), Fail> {
    let alloc = rt.alloc();
    for numbers in HOLDING {
        assert_eq!(rt; answers(alloc, &numbers)?, [Check::Yes, Check::Yes]);
    }
    for numbers in BROKEN {
        assert_eq!(rt; answers(alloc, &numbers)?, [Check::No, Check::No]);
    }
    for numbers in WIDE {
        assert_eq!(rt; answers(alloc, &numbers)?, [Check::TooWide, Check::TooWide]);
    }
    Ok(())
}

#[test]
fn a_ray_shows_that_no_counts_are_feasible(rt: HostRuntime) -> Result<(), Fail> {
    let alloc = rt.alloc();
    let (yes, no, wide) = (Check::Yes, Check::No, Check::TooWide);
    let rows = [
        (0, [-1, -1], [0, 0], 1, yes),
        (1, [-1, -1], [0, 0], 1, no),
        (0, [-1, -1], [0, 0], 0, no),
        (0, [-1, -1], [0, 0], -1, no),
        (0, [-2, -1], [0, 0], 1, no),
        (0, [-1, -1], [-1, 0], 2, no),
        (0, [0, 0], [0, 0], 0, no),
        (i128::MIN, [-1, -1], [0, 0], 2, wide),
    ];
    for (visits, u, v, w, wanted) in rows {
        let system = two_loops(alloc, visits)?;
        let ray = Ray {
            u: Table::new(u.to_vec(alloc)?),
            v: Table::new(v.to_vec(alloc)?),
            w: Table::new([w].to_vec(alloc)?),
        };
        assert_eq!(rt; check_ray(&system, &ray), wanted);
    }
    Ok(())
}
