//! Rows that represent covers. A tid is the index of a basket, and the cover of a set has the tids
//! of the baskets that contain it: `tids` lists them, `diffs` lists what they lack, and `bit_rows` has
//! a bit for each tid. Two rows are joined to the row of what their covers share.
//!
//! ```
//! let weights = Weights::of(alloc, &[1, 1, 1, 1, 1, 1, 1, 1, 1])?;
//! let one = R::first(alloc, &[0, 3, 4, 6, 7, 8], &weights)?;
//! let two = R::first(alloc, &[0, 1, 2, 3, 5, 7, 8], &weights)?;
//! let three = R::first(alloc, &[2, 4, 5, 6, 7, 8], &weights)?;
//! let one_two = R::joined(alloc, &one, &two, &weights)?;
//! ```
#![tactic(auto)]

mod bit_rows;
mod bits;
mod cover;
mod diffs;
mod marks;
mod plane;
mod planes;
mod row;
mod row_words;
mod tids;
mod weights;
pub mod worked;

pub use bit_rows::BitRow;
pub use bits::and_count;
pub use diffs::DiffList;
pub use marks::Marks;
pub use row::Row;
pub use tids::TidList;
pub use weights::Weights;
