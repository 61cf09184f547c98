//! Readers of baskets that return exactly the baskets of an input, or its first fault.
//!
//! ```
//! let mut parts = FimiParts::new(alloc);
//! for piece in pieces {
//!     parts.feed(piece)?;
//! }
//! let database = parts.finish()?;
//! ```
#![tactic(auto)]

mod batches;
mod byte_class;
mod bytes;
mod counted_line;
mod fault;
mod gathered;
mod input;
mod item_counts;
pub mod laws;
mod line;
mod line_reader;
mod lines;
mod number;
mod numbers;
mod parts;
mod read;
mod text;
pub mod worked;

pub use byte_class::{ByteClass, class_of};
pub use bytes::{MAX_BYTES, take_in, text_of};
pub use counted_line::CountedLine;
pub use fault::ReadFault;
pub use gathered::GatheredBaskets;
pub use item_counts::ItemCounts;
pub use lines::middle_of;
pub use numbers::Numbers;
pub use parts::FimiParts;
pub use read::{
    MAX_BLOCK, count_fimi, count_fimi_shared, read_fimi, read_fimi_by, read_fimi_shared,
};
