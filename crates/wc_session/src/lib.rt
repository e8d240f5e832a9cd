//! One session of a workspace: the lines of its script in, the replies out.
#![tactic(auto)]

mod asks;
#[cfg(test)]
mod command_tests;
mod commands;
mod following;
mod serving;
mod sessions;
#[cfg(test)]
mod tests;

pub use commands::{Command, read_command};
pub use sessions::{SessionEnd, session};
