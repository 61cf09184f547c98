//! The frequent sets of a database, by any miner and any number of workers.
//!
//! ```
//! let database = database(alloc, text)?;
//! let plan = plan.with_workers(2);
//! match mine(rt, alloc, &database, &plan, &gate) {
//!     Ok((frequent, _)) => Ok(Some(frequent.sets().len())),
//!     Err(MineFault::TooMany { limit }) if limit == plan.limit() => Ok(None),
//!     Err(fault) => Err(Fail::from(fault)),
//! }
//! ```
#![tactic(auto)]

mod apriori;
mod class_miner;
mod greatest;
mod joiner;
mod merging;
mod mining;

pub use greatest::greatest_count;
pub use mining::{Work, cutting, mine, mine_in_place};
