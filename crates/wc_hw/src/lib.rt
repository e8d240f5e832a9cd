//! The hardware file, read from JSON and printed again.
#![tactic(auto)]

mod members;
mod printing;
mod reading;
#[cfg(test)]
mod tests;

pub use printing::{print_hardware, write_hardware};
pub use reading::read_hardware;
