//! One session of a shared workspace: the lines of its script in, the replies out.
#![tactic(auto)]

mod following;
mod serving;
mod sessions;

pub use sessions::{SessionEnd, session};

#[cfg(test)]
mod tests;
