//! What must and what may be in one set of an LRU cache: ages of its lines, at most or at least those in the
//! cache. After Ferdinand and Wilhelm, Efficient and precise cache behavior prediction for real-time systems,
//! 1999.
#![tactic(auto)]

mod may;
mod may_lattice;
mod must;
mod must_lattice;
mod slots;
#[cfg(test)]
mod tests;

pub use may::May;
pub use must::Must;
