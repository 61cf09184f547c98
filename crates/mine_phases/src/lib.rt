//! The phases of mining that workers share. Each is a round of pieces: the baskets or the ranks are
//! cut into parts, and what is found doesn't depend on which worker takes which.
//!
//! ```
//! let (runs, items) = runs_shared(rt, alloc, coded, cutting)?;
//! let forest = Forest::of_runs(alloc, &items, runs)?;
//! let miner = FpGrowthMiner(forest);
//! let phase = class_phase(cutting, gate);
//! let (frequent, trees) = mine_shared(rt, alloc, &items, miner, limit, &phase)?;
//! Ok((frequent, Work::of_trees(trees)))
//! ```
//!
//! `triangle` counts the pairs of few ranks, over `ranges` of them, and `pairs` finds the frequent
//! pairs of many. `runs` prepares what `classes` mines class by class with a `class_miner`, whose
//! sets are reported to a `round_tally`.
#![tactic(auto)]

mod class_miner;
mod classes;
mod joined;
mod pairs;
mod ranges;
mod round_tally;
mod runs;
mod triangle;

pub use class_miner::ClassMiner;
pub use classes::{class_phase, mine_shared};
pub use pairs::count_pairs;
pub use runs::runs_shared;
pub use triangle::triangle_pairs;
