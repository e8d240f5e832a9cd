//! What a step of a graph costs: without its fetch, and at most, as the category of its node allows it. After Li and
//! Malik 1995, and Ferdinand and Wilhelm 1999.
#![tactic(auto)]

mod base;
mod upper;

pub use base::base_cycles;
pub use upper::costs;

#[cfg(test)]
mod tests;
