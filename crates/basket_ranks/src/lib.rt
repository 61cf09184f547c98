//! The frequent items by rank, baskets as lists of ranks, and the shards of a list of baskets.
//!
//! ```
//! let counts = count_items(alloc, database.baskets())?;
//! Codes::of(alloc, &counts, database.total(), minimum)?.code(alloc, database)
//! ```
#![tactic(auto)]

mod added;
mod coded;
mod codes;
mod depth;
pub mod laws;
mod ranks;
mod shards;
pub mod worked;

pub use added::add_counts;
pub use coded::{Coded, CodedItems};
pub use codes::Codes;
pub use depth::deep;
pub use shards::shard;
