//! Conditional databases.
//!
//! ```
//! let numbers = &mut scratch.numbers;
//! let conditional = base
//!     .paths
//!     .below(alloc, numbers, number, base.least, &ranks)?;
//! let paths = Paths::of(alloc, conditional)?;
//! ```
//!
//! `paths` has coded baskets in the form from which classes are mined: as runs, or as words if there
//! are few ranks (`word_paths`). `conditional` keeps the baskets that have a rank to the ranks that
//! are frequent together with it, which `local_numbers`, `bit_table` and `shift`
//! number anew; `few` makes that of at most one rank from supports. `scratch` is used again from rank
//! to rank.
#![tactic(auto, using(std::proofs::lemmas::Grind::common_steps))]

mod bit_table;
mod conditional;
mod few;
mod local_numbers;
mod paths;
mod scratch;
mod shift;
mod word_paths;

pub use conditional::{Conditional, ranks_of};
pub use local_numbers::LocalNumbers;
pub use paths::Paths;
pub use scratch::ClassScratch;
