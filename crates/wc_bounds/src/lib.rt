//! How many back steps one entry of a loop allows: the bound that the flow facts state for its head. Loop bounds after Li
//! and Malik 1995; a fact may name the calls through which the loop is reached, call strings after Sharir and Pnueli 1981.
#![tactic(auto)]

mod best;
mod fitting;
mod stated;
mod tallies;

pub use tallies::bounds;

#[cfg(test)]
mod tests;
