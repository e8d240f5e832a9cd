//! What is known of the fetch at each node of a graph, and why the cycles of every path stay within the costs that are
//! charged for it. After Ferdinand and Wilhelm 1999.
#![tactic(auto)]

mod flags;
mod sound;

pub use flags::categories;
pub use sound::{
    categories_are_justified, categories_are_sound, must_and_may_are_sound, upper_costs_bound,
};

#[cfg(test)]
mod tests;
