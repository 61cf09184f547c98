/// How the records of a CSV input are written.
#[derive(Clone, Copy, Debug, PartialEq, Eq)]
pub struct Dialect {
    /// The byte between two fields.
    pub separator: u8,
    /// Whether the first record is left out.
    pub header: bool,
}
