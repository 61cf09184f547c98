//! Baskets of ranks, as lists and as words.
//!
//! ```
//! let (count, ranks, baskets) = lists.into_parts();
//! let all = Baskets {
//!     count,
//!     ranks: &ranks,
//!     spans: &baskets,
//! };
//! let of = runs_by_ranges(rt, alloc, all, ranges, cutting)?;
//! ```
//!
//! `list_baskets` sorts coded baskets so that those with a common prefix are neighbours, and merges
//! equal ones; `entries` has the keys by which they are sorted, and `span` is a part of the list
//! that has all their ranks. `baskets` is how they are lent. If there are at most 64 ranks, `words`
//! has the baskets as bits, which are sorted and merged faster than lists, and `word_baskets` keeps
//! them. `covers` finds the cover of each rank.
#![tactic(auto)]

mod baskets;
mod covers;
mod entries;
mod list_baskets;
pub mod span;
mod word_baskets;
pub mod words;

pub use baskets::{BASKETS_AHEAD, Baskets};
pub use list_baskets::ListBaskets;
pub use span::Span;
pub use word_baskets::WordBaskets;
