//! The plan that the words of a command line make: what is asked of an input, and how it is found.
//!
//! ```
//! let Invocation { task, .. } = invocation_of(alloc, words)?;
//! let Task::Report(plan) = task else {
//!     return Err(Fail::new("the words ask for no report"));
//! };
//! ```
#![tactic(auto)]

mod command;
mod count_plan;
mod help;
mod invocation;
pub mod laws;
mod layout;
mod options;
mod plan;
mod values;
pub mod worked;

pub use command::{PlanFault, invocation_of, plan_status};
pub use count_plan::CountPlan;
pub use invocation::{Invocation, Origin, Task};
pub use layout::{Form, Layout};
pub use plan::{Ask, MOST_PIECES, MOST_WORKERS, Miner, Plan};
