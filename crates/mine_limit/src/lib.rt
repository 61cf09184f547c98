//! The limit on the number of sets that a miner finds: what counts them, and the fault if there are
//! more.
//!
//! ```
//! let mut tally = Limit::new(limit);
//! for rank in 0..coded.ranks() {
//!     if !tally.over() {
//!         let (sets, _) = class(alloc, coded, by, rank, &mut tally)?;
//!         write_sets(written, alloc, sets)?;
//!         write!(written, "{}|", tally.told())?;
//!     }
//! }
//! ```
#![tactic(auto)]

mod fault;
mod tally;

pub use fault::MineFault;
pub use tally::{Limit, Tally};
