//! The kinds of features of a workspace: what each requires, in which order they are computed, and which parts of the
//! inputs each depends on. After OTAWA 2010, whose processors provide and require features.
#![tactic(auto)]

mod faults;
mod kind_sets;
mod ordering;
mod registries;
mod requirements;

pub use faults::RegistryFault;
pub use registries::Registry;
pub use wc_model::{Describe, Kind, Part};

#[cfg(test)]
mod tests;
