//! What every crate of the tool speaks of: addresses, faults, and whole numbers that never wrap. Its proofs hold the laws on
//! products, sums, tests and lists that the crates share.
#![tactic(auto)]

mod arithmetic;
mod decimals;
mod divisors;
mod faults;
mod troubles;

pub use arithmetic::{add, mul, sub};
pub use decimals::{read_decimal, read_number};
pub use divisors::gcd;
pub use faults::{Addr, Fault, FieldWord, FileWord, UnbuiltWord, number};
pub use troubles::Trouble;
