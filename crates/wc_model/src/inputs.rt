use crate::{Fact, Facts, Hardware, Image};
use std::sync::Arc;

/// All that a bound depends on: the program, the flow facts and the hardware.
#[derive(Debug, Drop)]
pub struct Inputs {
    pub image: Arc<Image>,
    pub facts: Facts,
    pub hardware: Hardware,
}

/// A change of the inputs. `Drop` names the fact by its number.
#[derive(Debug, Drop, Clone, PartialEq)]
pub enum Edit {
    Add(Fact),
    Drop(u64),
    Hardware(Hardware),
}
