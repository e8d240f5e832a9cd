use crate::Table;

/// A step of the flow system, with its cost in cycles.
#[derive(Clone, Copy, Debug, PartialEq, Eq)]
pub struct SystemStep {
    pub source: u32,
    pub target: Option<u32>,
    pub cost: u64,
}

/// A loop of the flow system: `back` and `entry` list places in the steps.
#[derive(Debug, Drop)]
pub struct SystemLoop {
    pub head: u32,
    pub bound: u32,
    pub back: Table<u32>,
    pub entry: Table<u32>,
}

/// A stated inequality: the sum of factor times visits is at most the constant.
#[derive(Debug, Drop)]
pub struct SystemLimit {
    pub constant: i128,
    pub factors: Table<(u32, i128)>,
}

/// The flow system of implicit path enumeration. After Li and Malik 1995.
#[derive(Debug, Drop)]
pub struct System {
    pub nodes: u32,
    pub steps: Table<SystemStep>,
    pub start: u32,
    pub loops: Table<SystemLoop>,
    pub limits: Table<SystemLimit>,
}

/// Counts `x` over the denominator `den` with the value `num`, and the prices `u`, `v`, `w` over `scale`
/// that show the value to be the greatest.
#[derive(Debug, Drop)]
pub struct Solution {
    pub num: i128,
    pub den: i128,
    pub x: Table<i128>,
    pub scale: i128,
    pub u: Table<i128>,
    pub v: Table<i128>,
    pub w: Table<i128>,
}

/// Prices that show that no counts are feasible.
#[derive(Debug, Drop)]
pub struct Ray {
    pub u: Table<i128>,
    pub v: Table<i128>,
    pub w: Table<i128>,
}
