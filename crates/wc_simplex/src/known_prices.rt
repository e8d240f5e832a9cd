/// The prices of the rows: a potential per node, 0 where the node is passed through, and the loops' and the limits'
/// prices.
#[derive(Debug, Drop)]
pub struct KnownPrices {
    pub nodes: Vec<i128>,
    pub loops: Vec<i128>,
    pub limits: Vec<i128>,
}
