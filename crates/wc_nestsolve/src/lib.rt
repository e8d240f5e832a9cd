//! The optimum of a flow system over the loop nest of its graph, with the certificate that shows it.
#![tactic(auto)]

mod classes;
mod counts;
mod found;
mod last;
mod laws;
mod order;
mod potentials;
mod rounds;
mod tables;
mod turns;
mod ways;
mod whole;

pub use laws::loops_are_priced;
pub use whole::solve;

#[cfg(test)]
mod tests;
