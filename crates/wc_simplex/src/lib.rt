//! The row machine: the simplex method over whole numbers of 128 bits, for systems with stated limits. After Dantzig
//! 1951 and Bland 1977; where its limits are met is this project's.
#![tactic(auto)]

mod choice;
mod choices;
mod columns;
mod counts;
mod driving;
mod ending;
mod fault;
mod half;
mod halves;
mod known_prices;
mod lines;
mod machine_end;
mod making;
mod numbers;
mod only;
mod ordered;
mod ordering;
mod phases;
mod potentials;
mod prices;
mod reading;
mod rows;
mod running;
mod solving;
mod start;
mod starts;
mod stated;
mod tableau;

pub use fault::SolveFault;
pub use solving::solve;

#[cfg(test)]
mod tests;
