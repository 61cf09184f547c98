//! What the seats of a round have done. Only the proofs see it: no value of these types is ever
//! made.
use std::collections::LinkedList;

/// What one seat has done in its round.
pub struct Record {
    /// How many seats it represents: more than one before the others are cut from it, and after
    /// they have joined it.
    pub parts: u64,
    /// The pieces that it got, in their order.
    pub claimed: LinkedList<u32>,
    /// How many of its seats got the result that no piece is left.
    pub past: u64,
    /// For each counter, what it has added.
    pub added: LinkedList<u64>,
    /// For each counter, the number that it last knew it to have.
    pub seen: LinkedList<u64>,
}

/// A seat has a record until it joins another, which then has what it did.
pub enum SeatState {
    Spent,
    Holding(Record),
}
