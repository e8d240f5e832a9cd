//! The flow facts of a program, read from a text and printed again: a profile after the F4 files of OTAWA (2010).
#![tactic(auto)]

mod addresses;
mod branchings;
mod facts;
mod finding;
mod lookups;
mod name_order;
mod pieces;
mod printing;
mod readers;
mod reading;
mod runs;
mod stops;
mod sums;
#[cfg(test)]
mod tests;
mod tokens;

pub use printing::{print_fact, write_fact};
pub use reading::{read_facts, read_one};
