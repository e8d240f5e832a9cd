/// Whether a certificate holds, or that a product or a sum which it names leaves the range of exact numbers.
#[derive(Clone, Copy, Debug, PartialEq, Eq)]
pub enum Check {
    Yes,
    No,
    TooWide,
}
