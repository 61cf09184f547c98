//! Work in pieces, which workers claim in a round: what is found doesn't depend on which worker
//! takes which.
//!
//! ```
//! let work = RankRuns { baskets, ranges };
//! let lists = by_pieces(rt, alloc, &work, &Phase::new(PHASE, cutting, &Open))?;
//! in_a_row(alloc, lists)
//! ```
//!
//! A `phase` finds a value for each part that its `pieces` have, cut as its `cutting` says.
//! `worker_result` is what a worker hands back, `placed` puts values in their order, and workers
//! pass a `gate` with each piece. `counting` counts the items of baskets so.
#![tactic(auto)]

mod counting;
mod cutting;
mod gate;
mod phase;
mod pieces;
mod placed;
mod worker_result;

pub use counting::count_shared;
pub use cutting::Cutting;
pub use gate::{Gate, Open};
pub use phase::Phase;
pub use pieces::{PartWork, by_pieces};
pub use placed::collected;
pub use worker_result::{WorkerResult, add_counts, by_workers, claim_piece};
