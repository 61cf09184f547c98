//! From bytes to bytes, in memory.
ghost use Rattle.std.specs.Prelude.{◌≡◌, Ok, IfErr, IfOk};
ghost use Rattle.basket.specs.Engine.{IsOutcomeFault};
ghost use Rattle.basket_outcome.specs.Outcome.{outcome};

use crate::engine::reported;
use basket_outcome::RunFault;
use basket_plan::Plan;
use basket_stream::SliceSource;
use std::alloc::Global;
use std::random::RandomSource;
use std::thread::Threads;

/// The text of the report that the plan asks for over the bytes of an input: the outcome, as is
/// each fault except out of memory.
pub fn report<R: RandomSource + Threads + Sync>(
    rt: &R,
    alloc: Global,
    plan: &Plan,
    bytes: &[u8],
) -> Result<Vec<u8>, RunFault>
    ensures ok { IfOk result (λ text. outcome bytes.now plan.now.question ≡ Ok text.items) }
    ensures err { IfErr result (IsOutcomeFault (outcome bytes.now plan.now.question)) }
{
    let made = match reported(rt, alloc, plan, &mut SliceSource::new(bytes)) {
        Ok((made, _)) => made,
        Err(fault) => return Err(fault),
    };
    Ok(made.into_text(rt, alloc)?)
}
