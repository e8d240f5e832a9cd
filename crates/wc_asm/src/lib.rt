//! The other way round: words of instructions, and ELF files of small programs, as tests and trials need
//! them. What is written here is read back by the readers of words and of files.
#![tactic(auto)]

mod encode;
mod layout;
mod program;
#[cfg(test)]
mod tests;
mod writer;

pub use encode::word_of;
pub use program::{Program, is_writable};
pub use writer::write_elf;
