use crate::tableau::Machine;

/// The tableau at the start, and which of its rows were negated.
#[derive(Debug, Drop)]
pub struct Start {
    pub machine: Machine,
    pub negated: Vec<bool>,
}
