//! The plain types of the analysis and, in `specs/`, the definitions that every contract cites.
#![tactic(auto)]

mod elf_image;
mod entries;
mod flow_facts;
mod flow_system;
mod graphs;
mod hardware;
mod image_words;
mod inputs;
mod instructions;
mod kinds;
mod machine;
mod numbered_facts;
mod tables;
mod values;
pub mod walks;

pub use elf_image::{Image, Name, Range};
pub use entries::{Asked, End, Ended, Entry, Listing};
pub use flow_facts::{Fact, Facts, Sum, Targets, Term};
pub use flow_system::{Ray, Solution, System, SystemLimit, SystemLoop, SystemStep};
pub use graphs::{Bounds, Category, Context, Costs, Flags, Graph, Head, LineMap, Nest, Node, Step};
pub use hardware::{default_hardware, same_cache, same_cycles};
pub use inputs::{Edit, Inputs};
pub use instructions::{Class, Control, Insn};
pub use kinds::{Describe, Kind, Part};
pub use machine::{Cache, Cycles, Hardware, StartState};
pub use numbered_facts::{copy_fact, copy_facts, is_checksum, opening_facts};
pub use tables::{Table, Text};
pub use values::{Outcome, Value};

#[cfg(test)]
mod tests;
