//! The names of items and the ids of baskets, and their numbers by first appearance.
//!
//! ```
//! let name = trim(text);
//! if !name.is_empty() {
//!     numbers.push(names.number(name)?)?;
//! }
//! ```
#![tactic(auto)]

mod ids;
mod key;
mod names;
mod recent;
mod seed;

pub use ids::Ids;
pub use names::{Names, Numbering};
pub use seed::Seed;
