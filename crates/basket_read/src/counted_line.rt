use basket_sets::Itemset;

/// A set with its count, as a line of a list of counted sets has them.
#[derive(Debug, PartialEq, Eq, Drop)]
pub struct CountedLine {
    pub set: Itemset,
    pub count: u64,
    /// The number of the line, from 1 on.
    pub line: u32,
}
