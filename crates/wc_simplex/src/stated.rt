/// A row as the system states it: its entry at each step, its right side, and whether it is an inequality.
#[derive(Debug, Drop)]
pub struct StatedRow {
    pub entries: Vec<i128>,
    pub side: i128,
    pub slack: bool,
}
