/// What a phase does next: nothing, since no column enters; nothing, since a number would leave 128 bits; nothing,
/// since no row leaves for the column; or a pivot at a row and a column.
#[derive(Clone, Copy, Debug)]
pub enum Choice {
    Finished,
    TooWide,
    NoRow(usize),
    Pivots(usize, usize),
}
