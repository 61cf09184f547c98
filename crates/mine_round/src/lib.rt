//! Threads share numbered pieces of work and sums over atomic words: each piece goes to one seat, and nothing that was added is lost.
//!
//! ```
//! let (round, mut seats) = Round::new(alloc, 1, 0, 2)?;
//! let claimed = [round.claim(&mut seats[0]), round.claim(&mut seats[1])];
//! Ok((claimed, closed(round, seats)?))
//! ```
#![tactic(auto)]

mod collector;
pub mod laws;
mod round;
mod seat;
pub mod state;
mod totals;
mod words;

pub use collector::{Collector, Missing, Refused};
pub use round::Round;
pub use seat::RoundSeat;
pub use totals::{Outstanding, Totals};
