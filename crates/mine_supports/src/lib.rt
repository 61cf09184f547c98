//! The supports of given sets, counted by rows of bits, and by `sums` where baskets are sparse.
//!
//! ```
//! let database = database(alloc, baskets)?;
//! let sets = sets_of(alloc, lists)?;
//! Ok(count_shard(alloc, database.baskets(), &sets)?)
//! ```
//!
//! Sets are kept as `extensions`: prefixes, and the items that extend them; a `prefix_range` is some
//! prefixes in a row. `shard` counts sets by a `counter`: in each `block` of baskets the `used_items`
//! have `rows` of bits, and the `tid_words` of the baskets that contain a set are found from those of
//! its `prefixes` (`block_counts`).
#![tactic(auto, using(std::proofs::lemmas::Grind::common_steps))]

mod block;
mod block_counts;
mod counter;
mod extensions;
mod prefix_range;
mod prefixes;
mod rising;
mod rows;
mod shard;
mod sums;
mod tid_words;
mod used_items;

pub use counter::RowCounter;
pub use extensions::Extensions;
pub use prefix_range::PrefixRange;
pub use shard::{count_extensions, count_shard};
