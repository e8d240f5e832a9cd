//! Walks over numbered nodes and any kind of step: an order in which every step leads back, and the greatest
//! cost of a walk.

mod arrows;
mod best;
mod greatest;
mod places;
mod search;

pub use arrows::Arrow;
pub use best::{Greatest, greatest_from};
pub use greatest::greatest_costs;
pub use places::{starts, steps_from};
pub use search::{Order, order_nodes};

#[cfg(test)]
mod tests;
