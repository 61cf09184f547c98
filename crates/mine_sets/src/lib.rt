//! The supports of sets, counted by workers that share the baskets: `supports` adds them to counters
//! in a phase. Of given sets, `asked` is what is counted, and `count` has the supports beside them.
//!
//! ```
//! let workers = counting_workers(&database, sets.len(), plan.workers());
//! let cutting = Cutting::new(workers, plan.pieces());
//! let counted = count_sets(rt, alloc, &database, sets, cutting, &Open)?;
//! Ok(listed(alloc, &counted, &names, plan)?)
//! ```
#![tactic(auto)]

mod asked;
mod count;
mod supports;

pub use asked::asked_for;
pub use count::count_sets;
pub use supports::count_candidates;
