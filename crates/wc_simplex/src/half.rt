/// A row before its artificial column: its real entries and its right side, and whether it was negated.
#[derive(Debug, Drop)]
pub struct HalfRow {
    pub real: Vec<i128>,
    pub side: i128,
    pub negated: bool,
}
