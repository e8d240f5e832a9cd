//! The most precise solution of a data-flow problem over a control-flow graph, for every lattice of states.
//! After Ferdinand and Wilhelm, Efficient and precise cache behavior prediction for real-time systems, 1999.
#![tactic(auto)]

mod fixing;
mod lattice;
mod most_precise;
mod waiting;

pub use lattice::Lattice;
pub use most_precise::solve;
