//! Lists of counted sets, put together and asked. `merge` makes one line of those that have one
//! set, `combined` is the result, `frequent` are its sets that meet a minimum, and `gap` finds one
//! of these whose subsets are missing.
//!
//! ```
//! if needs_total(plan.ask(), plan.minimum()) && combined.total().is_none() {
//!     return Err(ReadFault::NoTotal);
//! }
//! match gap(alloc, plan, combined)? {
//!     Some(fault) => Err(fault),
//!     None => Ok(combined.frequent(alloc, plan.minimum())?),
//! }
//! ```
#![tactic(auto)]

mod combined;
mod frequent;
mod gap;
pub mod laws;
mod merge;

pub use combined::CombinedCounts;
