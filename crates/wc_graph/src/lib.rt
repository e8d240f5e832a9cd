//! The control-flow graph of a function with its calls expanded: each call string has its own copy of the
//! function that it calls. Call strings after Sharir and Pnueli 1981; branches, calls and returns after the ARM
//! Architecture Reference Manual.
#![tactic(auto)]

mod assembly;
mod buckets;
mod building;
mod code;
mod families;
mod faults;
mod frames;
mod interned;
mod inverse;
mod keys;
mod lists;
mod live;
mod numbering;
mod opened;
mod order;
mod places;
mod ranked;
mod rising;
mod rows;
mod search;
mod sources;
mod stated;
mod survey;
#[cfg(test)]
mod tests;
mod turns;
mod walk;
mod ways;

pub use building::build;
