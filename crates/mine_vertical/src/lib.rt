//! Eclat (Zaki 2000): a class is mined alone, by the search of `mine_search`, over the baskets of its
//! conditional database. A row represents the tids of the baskets that contain a set. The database of a set
//! is made anew (`reprojected`) if that is much smaller.
//!
//! ```
//! let vertical = Vertical::of(alloc, coded)?;
//! eclat_class::<R, T>(alloc, &vertical, rank, tally)
//! ```
#![tactic(auto)]

mod eclat;
mod joins;
pub mod laws;
mod local_baskets;
mod projected;
mod search_scratch;
mod siblings;
mod vertical;

pub use eclat::{eclat_class, eclat_class_with};
pub use mine_rows::{BitRow, DiffList, Row, TidList};
pub use vertical::Vertical;
