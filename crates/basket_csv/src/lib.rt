//! Readers of baskets of names from CSV, which return exactly the baskets of an input, or its first
//! fault.
//!
//! ```
//! let known = Names::none(alloc);
//! let (lines, names) = match read_named_counts(rt, alloc, reader, dialect, known, workers) {
//!     Ok(read) => read,
//!     Err(fault) => return Err(fault),
//! };
//! ```
#![tactic(auto)]

mod baskets;
mod collector;
mod counts;
mod dialect;
mod field;
mod gathering;
mod groups;
mod lanes;
pub mod laws;
mod pairs;
mod parts;
mod read;
mod read_named;
mod reading;
mod record;
mod records;
mod row;
mod shared;
mod together;
pub mod worked;

pub use dialect::Dialect;
pub use read::{count_baskets, read_baskets, read_named_counts, read_single};
