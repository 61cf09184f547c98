//! Where the bytes of an input come from, and where those of a report go.
//!
//! ```
//! let reader = MemSource::new(input, step, None);
//! let writer = MemSink::new(rt.alloc(), 300, step, false)?;
//! let (result, text) = run_words(&rt, rt.alloc(), words, reader, writer)?;
//! ```
#![tactic(auto)]

mod failed;
mod memory;
mod sink;
mod source;

pub use failed::Failed;
pub use memory::{MemSink, MemSource, SliceSource};
pub use sink::{Sink, StdSink};
pub use source::{Source, StdSource};
