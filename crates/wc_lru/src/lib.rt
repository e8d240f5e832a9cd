//! A cache that drops what was used least recently, and the cycles of a path through a graph. After Ferdinand and
//! Wilhelm 1999.
#![tactic(auto)]

mod caches;
mod paths;
mod sets;
mod sums;

pub use caches::Lru;
pub use sums::cycles;

#[cfg(test)]
mod tests;
