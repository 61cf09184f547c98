//! Frequent pairs of ranks, for all miners.
//!
//! ```
//! if is_small_triangle(coded.ranks(), coded.baskets().len()) {
//!     return triangle_pairs(rt, alloc, coded, coded, cutting, gate);
//! }
//! let (runs, least) = runs_with_least(alloc, coded)?;
//! count_pairs(rt, alloc, &runs, least, cutting, gate)
//! ```
//!
//! `pairs` finds them by a count for each pair, in `triangle`, over baskets as `ranked` has them, if
//! the ranks are few, else rank by rank, by `sums` over `runs`: the indexes of each rank in the prefix
//! tree of the baskets, which `rank_runs` finds.
#![tactic(auto, using(std::proofs::lemmas::Grind::common_steps))]

mod pairs;
mod rank_list;
mod rank_range;
mod rank_runs;
mod ranked;
mod room;
mod runs;
mod sums;
mod triangle;

pub use pairs::{
    frequent_pairs, is_small_triangle, pays_for_classes, runs_keeping, runs_with_least,
};
pub use rank_range::RankRange;
pub use rank_runs::runs_of_range;
pub use ranked::RankedBaskets;
pub use room::make_room;
pub use runs::Runs;
pub use sums::{Sums, met_in_order};
pub use triangle::{pair_count, pairs_of_range};
