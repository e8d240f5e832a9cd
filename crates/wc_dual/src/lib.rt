//! Checks of certificates for flow systems, without memory, and the laws that every bound stands on: prices that
//! hold bound all feasible counts, by the duality of linear programs, and the steps of a walk that meets a system's
//! rows are feasible counts. After Li and Malik 1995.
#![tactic(auto)]

mod blocks;
mod certificates;
mod checks;
mod counts;
mod laws;
mod limits;
mod loops;
mod numbers;
mod passes;
mod prices;
mod sources;
mod values;

pub use certificates::{check, check_at_once, check_ray};
pub use checks::Check;
pub use laws::{certificates_bound, walks_are_feasible};

#[cfg(test)]
mod tests;
