//! Whether each node's line is in the cache: in every state that reaches it, or in some. Set by set, by the
//! most precise solution of each. After Ferdinand and Wilhelm, Efficient and precise cache behavior prediction
//! for real-time systems, 1999.
#![tactic(auto)]

mod all_sets;
mod names;
mod one_set;
mod own_lines;
#[cfg(test)]
mod tests;
mod writing;

pub use all_sets::{may, must};
