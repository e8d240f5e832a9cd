//! The texts of a session's replies and of the report of a shared history, written on a sink without memory. Each
//! entry of the history has its own line, so the report determines the history.
#![tactic(auto)]

mod answers;
mod edits;
mod entries;
mod replies;
mod runs;
mod tables;
mod words;

pub use replies::{Reply, write_reply};
pub use tables::write_report;

#[cfg(test)]
mod tests;
