//! How lists are searched and cut by keys. Nothing here knows of sets.
//!
//! ```
//! let mut table = IndexTable::with_room(alloc, sets.len())?;
//! let mut room = [0; MOST_ITEMS];
//! for index in 0..sets.len() {
//!     table.keep(items_hash(items_at(sets, index, &mut room)), index);
//! }
//! Ok(table)
//! ```
//!
//! `index_table` keeps by hashes where elements may be, and `near_search` looks for them in a sorted
//! list, close to an index first. `keyed` cuts a list in two that threads sort side by side.
#![tactic(auto)]

mod index_table;
mod keyed;
mod near_search;

pub use index_table::{IndexTable, MOST_STEPS, NOWHERE, item_hash, items_hash, word_hash};
pub use keyed::put_low_first;
pub use near_search::NearSearch;
