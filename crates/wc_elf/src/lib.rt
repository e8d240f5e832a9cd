//! The image of a 32-bit ELF file for ARM: its executable ranges and its named symbols.
//! After the System V gABI, chapter 4, and ELF for the ARM Architecture.
#![tactic(auto)]

mod fields;
mod headers;
mod image;
mod labels;
mod lookup;
mod ranges;
mod sections;
mod strings;
#[cfg(test)]
mod tests;

pub use image::read_image;
pub use lookup::find;
