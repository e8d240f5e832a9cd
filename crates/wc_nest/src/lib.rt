//! The loop nest of a control-flow graph, level by level: the classes of nodes that lead to each other, and what is
//! left inside them without the steps to their heads. After Steensgaard's nests as in Ramalingam 2002; the classes of a
//! level are found by the path-based search of Gabow 2000.
#![tactic(auto)]

mod classes;
mod entering;
mod graph_nest;
mod heads;
mod inner;
mod levels;
mod listing;
mod marking;
mod search;
mod ways;

pub use graph_nest::nest;

#[cfg(test)]
mod tests;
