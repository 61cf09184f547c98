//! From the bytes of an input to the bytes of a report.
//!
//! ```
//! let database = read_fimi(alloc, &mut SliceSource::new(text))?;
//! let plan = Plan::of(Ask::Sets, Minimum::Count(2));
//! let (frequent, _) = mine(rt, alloc, &database, &plan, &Open)?;
//! ```
#![tactic(auto)]

mod count;
mod done;
mod engine;
mod items;
mod memory;
mod workers;

pub use basket_core::{CountedSets, Database, Frequent, Itemset, MineFault, Minimum, Share};
pub use basket_mining::{Work, mine, mine_in_place};
pub use basket_outcome::{Contents, RunFault, read_asked, status_of};
pub use basket_plan::{
    Ask, CountPlan, Form, Invocation, Layout, Miner, Origin, Plan, PlanFault, Task, invocation_of,
    plan_status,
};
pub use basket_read::ReadFault;
pub use basket_stream::{
    Failed, MemSink, MemSource, Sink, SliceSource, Source, StdSink, StdSource,
};
pub use count::run_count;
pub use done::Done;
pub use engine::run;
pub use memory::report;
pub use mine_pieces::{Gate, Open};
