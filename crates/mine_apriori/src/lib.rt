//! The miner Apriori (Agrawal and Srikant 1994): from the frequent sets of one size it makes the
//! candidates of the next, counts them, and keeps those that are frequent.
//!
//! ```
//! let coded = coded(alloc, FIVE_BASKETS, 2)?;
//! Ok(apriori(alloc, &coded, u32::MAX)?.0)
//! ```
//!
//! `levels` goes from size to size, from the `first_level` on. `join` makes candidates by the
//! `intersection` of lists of items, which `search` looks up. `frequent` keeps the frequent sets. A
//! `joiner` does both for a level, alone or with others. The second level is made of the frequent
//! `pairs`.
#![tactic(auto)]

mod first_level;
mod frequent;
mod intersection;
mod join;
mod joiner;
pub mod laws;
mod levels;
mod pairs;
mod search;
pub mod worked;

pub use first_level::FirstLevel;
pub use frequent::add_frequent;
pub use join::{candidates, candidates_in};
pub use joiner::{Alone, Joiner};
pub use levels::{Levels, apriori};
