//! What the close of a round returns.
use crate::round::Round;
use crate::seat::RoundSeat;
use thiserror::Error;

/// What the seats of a round did together.
#[derive(Drop)]
pub struct Totals {
    /// How many pieces were claimed: those with the numbers below.
    pub claimed: u32,
    /// For each counter, the sum of what was added to it.
    pub counters: Vec<u64>,
}

/// A round can't be closed without all its seats. It comes back with those that were given.
#[derive(Debug, Drop, Error)]
#[error("{missing} seats of the round are missing")]
pub struct Outstanding {
    pub round: Round,
    pub seats: Vec<RoundSeat>,
    pub missing: u32,
}
