//! What an A32 word of ARMv7-A does, as far as control flow and cycles depend on it.
#![tactic(auto)]

mod decode;
mod fields;
#[cfg(test)]
mod tests;

pub use decode::insn;
