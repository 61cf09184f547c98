use crate::itemset::Itemset;

/// A set with its count. Lists of them are sorted by report order of the sets.
#[derive(Debug, PartialEq, Eq, PartialOrd, Ord, Drop)]
pub struct Counted {
    pub set: Itemset,
    pub count: u64,
}
