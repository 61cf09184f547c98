//! Sets with their counts for a plan.
ghost use Rattle.std.specs.Prelude.{◌≡◌, ◌≢◌, Ok, Err, IfOk};
ghost use Rattle.mine_limit.specs.declared.fault.MineFault.{MineFault as MiningFault};
ghost use Rattle.basket_read.specs.Fault.{Returns};
ghost use Rattle.basket_outcome.specs.Counted.{IsWhole, gap_in, listing_in, needs_subsets, needs_total};
ghost use Rattle.basket_outcome.specs.Prepared.{prepared_text};
ghost use Rattle.basket_outcome.specs.Outcome.{report_of_listing};

use crate::contents::style_of;
use crate::prepared::PreparedReport;
use basket_core::Frequent;
use basket_names::Names;
use basket_parts::CombinedCounts;
use basket_plan::{Ask, Plan};
use basket_read::ReadFault;
use basket_sets::Minimum;
use mine_limit::MineFault;
use std::alloc::{AllocError, Global};
use std::thread::Threads;

/// The sets that meet the minimum among merged counted sets, if all is there that matters.
pub fn listing(alloc: Global, plan: &Plan, combined: &CombinedCounts) -> Result<Frequent, ReadFault>
    ensures exact { Returns result (listing_in plan.now.question combined.now) }
    ensures not_read { result ≢ Err ReadFault.Read }
    ensures whole { IfOk result (IsWhole plan.now.question.ask) }
{
    if needs_total(plan.ask(), plan.minimum()) && combined.total().is_none() {
        return Err(ReadFault::NoTotal);
    }
    match gap(alloc, plan, combined)? {
        Some(fault) => Err(fault),
        None => Ok(combined.frequent(alloc, plan.minimum())?),
    }
}

/// The first of the sets that meet the minimum which lacks a subset, if that matters.
fn gap(
    alloc: Global,
    plan: &Plan,
    combined: &CombinedCounts,
) -> Result<Option<ReadFault>, AllocError>
    ensures { IfOk result (λ gap. gap ≡ gap_in plan.now.question combined.now) }
{
    if needs_subsets(plan.ask()) {
        combined.first_gap(alloc, plan.minimum())
    } else {
        Ok(None)
    }
}

/// Whether the weight of all baskets matters: a share is a part of it, and so is a lift.
fn needs_total(ask: Ask, minimum: Minimum) -> bool
    ensures { result ≡ needs_total ask minimum }
{
    matches!(ask, Ask::Rules(..)) || matches!(minimum, Minimum::Share(..))
}

/// Whether the subsets of the sets matter.
fn needs_subsets(ask: Ask) -> bool
    ensures { result ≡ needs_subsets ask }
{
    !matches!(ask, Ask::Items | Ask::Sets)
}

/// The report that the plan asks for, of counted sets that meet the minimum.
pub fn report_listing<R: Threads + Sync>(
    rt: &R,
    alloc: Global,
    frequent: Frequent,
    names: &Option<Names>,
    plan: &Plan,
) -> Result<PreparedReport, MineFault>
    requires { IsWhole plan.now.question.ask frequent }
    ensures ok { IfOk result (λ made. report_of_listing frequent names.now plan.now.question ≡ Ok (prepared_text made)) }
    ensures err { (fault : MiningFault) → result ≡ Err fault → fault ≢ MineFault.Memory → report_of_listing frequent names.now plan.now.question ≡ Err fault }
{
    let ask = plan.ask();
    let limit = plan.limit();
    if !matches!(ask, Ask::Items) && frequent.sets().len() > limit as usize {
        return Err(MineFault::TooMany { limit });
    }
    let style = style_of(names, plan.layout().separator);
    let workers = plan.workers();
    Ok(PreparedReport::of_frequent(rt, alloc, frequent, ask, style, workers)?)
}
