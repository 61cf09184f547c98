//! The frequent items of an input whose baskets are counted while it is read.
ghost use Rattle.std.specs.Prelude.{◌≡◌, false, true, List, IfOk, OnOk};
ghost use Rattle.basket_read.specs.ItemCounts.{AreCountsOf, AreLightCounts};
ghost use Rattle.basket_report.specs.Report.{report_of};
ghost use Rattle.basket_report.specs.Style.{wording_of};
ghost use Rattle.basket_sets.specs.declared.weighted.Weighted.{Weighted as Basket};
ghost use Rattle.basket_sets.specs.Frequent.{frequent_items_of};
ghost use Rattle.basket.specs.Engine.{MakesReport};
ghost use Rattle.basket.specs.Done.{IsDoneFor};
ghost use Rattle.basket_mining.specs.Greatest.{greatest_support};

use crate::done::Done;
use crate::workers::plan_for;
use basket_core::{Source, add_counts};
use basket_csv::{Dialect, count_baskets};
use basket_mining::{cutting, greatest_count};
use basket_names::Names;
use basket_outcome::{PreparedReport, RunFault};
use basket_plan::{Ask, Form, Plan};
use basket_read::{ItemCounts, count_fimi_shared};
use basket_report::{Style, items_report};
use mine_limit::MineFault;
use mine_pieces::{Open, count_shared};
use std::alloc::{AllocError, Global};
use std::random::RandomSource;
use std::thread::Threads;

/// The report of the frequent items of a FIMI input, which are counted while it is read.
#[tactic(auto, using(std::proofs::lemmas::Grind::common_steps, crate::proofs::DoneLemmas::done_for_items))]
pub fn report_items<R: Threads + Sync, S: Source>(
    rt: &R,
    alloc: Global,
    plan: &Plan,
    reader: &mut S,
) -> Result<(PreparedReport, Done), RunFault>
    requires reader { S.has_failed reader.old ≡ false }
    requires open { S.at_end reader.old ≡ false }
    requires items { plan.now.question.ask ≡ Ask.Items }
    requires lines { plan.now.question.layout.form ≡ Form.Fimi }
    ensures made { MakesReport plan.now.question (S.left reader.old) (S.left reader.new) (S.has_failed reader.new) result }
    ensures done { IfOk result (λ made. IsDoneFor plan.now.miner plan.now.question (S.left reader.old) made.1) }
    ensures ended { OnOk result (S.at_end reader.new ≡ true) }
{
    let counts = match count_fimi_shared(rt, alloc, reader, plan.workers()) {
        Ok(counts) => counts,
        Err(fault) => return Err(RunFault::Input(fault)),
    };
    match report_counts(rt, alloc, &counts, plan, Style::Numbers) {
        Ok((report, greatest)) => Ok((PreparedReport::Text(report), Done::of_items(greatest))),
        Err(AllocError) => Err(RunFault::Mine(MineFault::Memory)),
    }
}

/// The report of the frequent items of CSV records that are baskets, which are counted while they
/// are read.
#[tactic(auto, using(std::proofs::lemmas::Grind::common_steps, crate::proofs::DoneLemmas::done_for_items))]
pub fn report_named_items<R: RandomSource + Threads + Sync, S: Source>(
    rt: &R,
    alloc: Global,
    plan: &Plan,
    reader: &mut S,
) -> Result<(PreparedReport, Done), RunFault>
    requires reader { S.has_failed reader.old ≡ false }
    requires open { S.at_end reader.old ≡ false }
    requires items { plan.now.question.ask ≡ Ask.Items }
    requires records { plan.now.question.layout.form ≡ Form.Baskets }
    ensures made { MakesReport plan.now.question (S.left reader.old) (S.left reader.new) (S.has_failed reader.new) result }
    ensures done { IfOk result (λ made. IsDoneFor plan.now.miner plan.now.question (S.left reader.old) made.1) }
    ensures ended { OnOk result (S.at_end reader.new ≡ true) }
{
    let layout = plan.layout();
    let separator = layout.separator;
    let dialect = Dialect {
        separator,
        header: layout.header,
    };
    let known = Names::none(alloc);
    let workers = plan.workers();
    let (counts, names) = match count_baskets(
        rt,
        alloc,
        reader,
        dialect,
        layout.weighted,
        known,
        workers,
    ) {
        Ok(counted) => counted,
        Err(fault) => return Err(RunFault::Input(fault)),
    };
    let style = Style::Names {
        names: &names,
        separator,
    };
    match report_counts(rt, alloc, &counts, plan, style) {
        Ok((report, greatest)) => Ok((PreparedReport::Text(report), Done::of_items(greatest))),
        Err(AllocError) => Err(RunFault::Mine(MineFault::Memory)),
    }
}

/// The report of the frequent items of baskets, and the greatest support of an item. The first
/// baskets have been counted; workers count the others.
#[tactic(auto, using(std::proofs::lemmas::Grind::common_steps, crate::proofs::ItemLemmas::totals_add))]
fn report_counts<R: Threads + Sync>(
    rt: &R,
    alloc: Global,
    counts: &ItemCounts,
    plan: &Plan,
    style: Style<'_>,
) -> Result<(Vec<u8>, u64), AllocError>
    requires { AreLightCounts counts.now }
    ensures report { (baskets : List Basket) → AreCountsOf counts.now baskets
        → IfOk result (λ made. made.0.items ≡ report_of (wording_of style.entry) (frequent_items_of baskets plan.now.question.minimum)) }
    ensures greatest { (baskets : List Basket) → AreCountsOf counts.now baskets → IfOk result (λ made. made.1 ≡ greatest_support baskets) }
{
    let first = counts.table.counts(alloc)?;
    let cutting = cutting(&plan_for(&counts.rest, plan));
    let rest = count_shared(rt, alloc, counts.rest.baskets(), cutting, &Open)?;
    let all = add_counts(alloc, &first, &rest)?;
    let total = counts.table.total() + counts.rest.total();
    let report = items_report(alloc, &all, plan.minimum(), total, style)?;
    Ok((report, greatest_count(&all)))
}
