use wc_model::Table;

/// Columns in the order of their least steps, which stand beside them.
#[derive(Debug, Drop)]
pub struct Ordered {
    pub columns: Vec<Table<usize>>,
    pub leasts: Vec<usize>,
}
