//! The outside: sources, sinks and houses that count their faults, and what is read from and written to them whole.
#![tactic(auto)]

mod adapters;
mod fault_texts;
mod file_reading;
mod houses;
mod line_buffer;
mod memory;
mod memory_files;
mod memory_house;
mod opened;
mod read_ahead;
mod script_lines;
#[cfg(test)]
mod script_tests;
mod streams;
mod system_files;
#[cfg(test)]
mod tests;
mod texts;
mod whole;

pub use adapters::{FileHouse, FileSink, FileSource};
pub use file_reading::read_file;
pub use houses::{House, HouseError};
pub use memory::{MemorySink, MemorySource};
pub use memory_files::MemoryFile;
pub use memory_house::MemoryHouse;
pub use opened::OpenedRow;
pub use script_lines::{LineRead, Lines};
pub use streams::{Failed, Sink, Source};
pub use system_files::SystemFile;
pub use texts::{Piece, write_pieces};
pub use whole::{ReadWhole, read_whole, write_whole};
