//! Itemsets, databases of weighted baskets, and what it means that a set is frequent.
//!
//! ```
//! let a = Itemset::from_items(alloc, a)?;
//! let b = Itemset::from_items(alloc, b)?;
//! Ok(report_order(&a, &b))
//! ```
#![tactic(auto, using(std::proofs::lemmas::Grind::common_steps))]

mod counted;
mod counts;
mod database;
mod item_table;
mod itemset;
pub mod laws;
mod merge;
mod minimum;
mod number;
mod order;
mod renumbering;
mod share;
mod short;
mod slot;
mod small;
mod weighted;
pub mod worked;

pub use counted::Counted;
pub use counts::count_items;
pub use database::{Database, support, weight_of};
pub use item_table::ItemTable;
pub use itemset::{INLINE_ITEMS, Itemset, is_rising, rename};
pub use merge::merged;
pub use minimum::{Minimum, parse_minimum};
pub use number::parse_number;
pub use order::report_order;
pub use renumbering::Renumbering;
pub use share::{Share, parse_share};
pub use weighted::Weighted;
