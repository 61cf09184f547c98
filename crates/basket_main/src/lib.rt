//! What a program does with the words of its command line, over what it is given to open and to
//! write to.
//!
//! ```
//! let mut inputs = SystemInputs { rt, code: &code };
//! let mut kept = Kept::new(rt.stdout(), &code);
//! let mut output = StdSink::new(&mut kept);
//! let mut errors = StandardError { rt };
//! let alloc = rt.alloc();
//! let ending = perform(threads, alloc, words, &mut inputs, &mut output, &mut errors);
//! ```
#![tactic(auto)]

mod answer;
mod ending;
mod program;
mod streams;

pub use ending::Ending;
pub use program::{perform, refuse};
pub use streams::{ErrorStream, Inputs};
