//! The flow system of implicit path enumeration, after Li and Malik 1995: a count per step of the control-flow graph,
//! and a row per loop and per stated limit. Refused by a ceiling on the values, and, where limits are stated, by the
//! size of the tableau that solves it.
#![tactic(auto)]

mod ceiling;
mod cells;
mod contexts;
mod limits;
mod loops;
mod steps;
mod terms;
mod whole;

pub use whole::system;

#[cfg(test)]
mod tests;
