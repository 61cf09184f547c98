//! A search for frequent sets, depth first, over conditional databases of any kind.
//!
//! ```
//! let class = Class {
//!     rank,
//!     support,
//!     below,
//!     steps: trees,
//! };
//! class.list(alloc, all.coded, &forest.empty, scratch, tally)
//! ```
#![tactic(auto)]

mod branch;
mod classes;
mod mined;
mod projected;
mod search;

pub use classes::Class;
pub use projected::Projected;
