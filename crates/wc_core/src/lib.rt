//! The core of a workspace that sessions share: it pins, starts, keeps and answers, and writes the history.
#![tactic(auto)]

mod answers;
mod asks;
mod calls;
mod given;
mod moves;
mod opening;
mod pins;
mod processor;
mod rows;
mod seats;
mod shared;
mod shelves;
mod store;
mod tickets;
mod touching;
mod work;
mod works;

pub use answers::Edited;
pub use given::Given;
pub use processor::Processor;
pub use shared::Core;
pub use tickets::{Flight, Landed, Next, Ticket};
pub use work::{Job, Work};

#[cfg(test)]
mod tests;
