//! Lists of sets with their counts, each kept in one word if its items are known beforehand, and
//! their report order.
//!
//! ```
//! let mut items = CountedSets::empty(alloc)?;
//! for index in 0..sets.len() {
//!     if sets.size(index) == 1 {
//!         items.push(sets.set(alloc, index)?, sets.count(index))?;
//!     }
//! }
//! Ok(items)
//! ```
#![tactic(auto)]

mod counted_sets;
mod known;
mod packed;
mod plain;
mod set_span;
mod sets;
mod word_order;

pub use counted_sets::CountedSets;
pub use known::MOST_ITEMS;
pub use sets::Sets;
