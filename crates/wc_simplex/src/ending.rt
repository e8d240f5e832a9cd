/// How some steps end: with so many pivots left, where a number left 128 bits, where a pivot too many is due, or where
/// no row leaves.
#[derive(Clone, Copy, Debug)]
pub enum Ending {
    Reached(u64),
    NumberLimit,
    PivotLimit,
    Unbounded,
}
