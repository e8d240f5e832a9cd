use crate::{Bounds, Category, Costs, Flags, Graph, LineMap, Nest, Solution, System, Table};
use wc_base::Fault;

/// What an ask gives: a bound in cycles, the reason why there is none, or want of memory.
#[derive(Clone, Copy, Debug, PartialEq, Eq)]
pub enum Outcome {
    Bound(u128),
    Fault(Fault),
    Memory,
}

/// The feature that a kind's work gives, in the order of the kinds.
#[derive(Debug, Drop)]
pub enum Value {
    Graph(Result<Graph, Fault>),
    Nest(Result<Nest, Fault>),
    Bounds(Result<Bounds, Fault>),
    Lines(Result<LineMap, Fault>),
    Must(Result<Flags, Fault>),
    May(Result<Flags, Fault>),
    Category(Result<Table<Category>, Fault>),
    Cost(Result<Costs, Fault>),
    System(Result<System, Fault>),
    Solution(Result<Solution, Fault>),
    Bound(Result<u128, Fault>),
}
