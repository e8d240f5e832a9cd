use crate::{Insn, Table};
use wc_base::Addr;

/// A call stack: its parent's stack with the pair (`returns`, `callee`) on top. The empty stack has no parent.
#[derive(Clone, Copy, Debug, PartialEq, Eq)]
pub struct Context {
    pub parent: Option<u32>,
    pub returns: Addr,
    pub callee: Addr,
}

/// A position that lies on a walk from the start to the exit: a call stack, by its number, and an address.
#[derive(Clone, Copy, Debug, PartialEq, Eq)]
pub struct Node {
    pub context: u32,
    pub pc: Addr,
    pub insn: Insn,
}

/// A step between two nodes, or to the exit where there is no target.
#[derive(Clone, Copy, Debug, PartialEq, Eq)]
pub struct Step {
    pub source: u32,
    pub target: Option<u32>,
    pub taken: bool,
}

/// The control flow graph with calls expanded.
#[derive(Debug, Drop)]
pub struct Graph {
    pub contexts: Table<Context>,
    pub nodes: Table<Node>,
    pub steps: Table<Step>,
    pub start: u32,
}

/// A loop, by its head's node and the place of the next larger loop's head.
#[derive(Clone, Copy, Debug, PartialEq, Eq)]
pub struct Head {
    pub node: u32,
    pub parent: Option<u32>,
}

/// The loop nest of a graph: per node the innermost loop, per step whether it leads back to a head.
#[derive(Debug, Drop)]
pub struct Nest {
    pub heads: Table<Head>,
    pub inside: Table<Option<u32>>,
    pub back: Table<bool>,
}

/// Per loop, how many back steps one entry allows.
#[derive(Debug, Drop)]
pub struct Bounds {
    pub of: Table<u32>,
}

/// Per node, its cache line and the line's set. Both lists are empty where there is no cache.
#[derive(Debug, Drop)]
pub struct LineMap {
    pub line: Table<u32>,
    pub set: Table<u16>,
}

/// A yes or a no per node.
#[derive(Debug, Drop)]
pub struct Flags {
    pub yes: Table<bool>,
}

/// What is known of the fetch at a node. After Ferdinand and Wilhelm 1999.
#[derive(Clone, Copy, Debug, PartialEq, Eq)]
pub enum Category {
    Hit,
    Miss,
    Unclassified,
    NoCache,
}

/// Per step, its greatest cost in cycles.
#[derive(Debug, Drop)]
pub struct Costs {
    pub of: Table<u64>,
}
