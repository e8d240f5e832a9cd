//! What each session has seen of the shared history, carried by one atomic word.
//!
//! The pen publishes the entries of the history, one by one. A pass belongs to one session and knows a prefix
//! of what was published, with every entry of its own session. A note is a copy of what was seen, by which
//! one pass tells another.
#![tactic(auto)]

mod desk;
mod pass;
mod pen;
mod views;

pub use desk::Desk;
pub use pass::{Note, Pass};
pub use pen::Pen;

#[cfg(test)]
mod tests;
