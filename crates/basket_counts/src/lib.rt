//! A reader of counted sets that returns exactly the sets of a list, or its first fault.
//!
//! ```
//! match read_counts(rt, alloc, reader, workers) {
//!     Ok(lines) => CombinedCounts::of(alloc, lines),
//!     Err(fault) => Err(fault),
//! }
//! ```
#![tactic(auto)]

mod halves;
pub mod laws;
mod line;
mod listed_sets;
mod read;
mod tail;
mod text;
pub mod worked;

pub use read::{read_counts, read_sets};
