ghost use Rattle.std.specs.Prelude.{◌≡◌, ◌≢◌, ◌↔◌, true, false, Ok, Err, IfSome, IfOk, OnOk, IfErr, Result};
ghost use Rattle.mine_limit.specs.declared.fault.MineFault.{MineFault as MiningFault};
ghost use Rattle.basket_read.specs.declared.fault.ReadFault.{ReadFault as InputFault};
ghost use Rattle.basket.specs.Engine.{IsContentsFault, IsReportFault, MakesReport, WritesReport, WritesPrefix};
ghost use Rattle.basket.specs.Done.{IsDoneFor, done_for, done_over};
ghost use Rattle.basket_outcome.specs.Prepared.{prepared_text};
ghost use Rattle.basket_outcome.specs.Outcome.{report_of_baskets, outcome_for};

use crate::done::Done;
use crate::items::{report_items, report_named_items};
use crate::workers::plan_for;
use basket_core::{Database, Sink, Source};
use basket_mining::{cutting, greatest_count, mine_in_place};
use basket_names::Names;
use basket_outcome::{Contents, PreparedReport, RunFault, listing, report_listing, style_of};
use basket_plan::{Ask, Form, Plan};
use basket_read::ReadFault;
use basket_report::items_report;
use mine_limit::MineFault;
use mine_pieces::{Open, count_shared};
use std::alloc::Global;
use std::random::RandomSource;
use std::thread::Threads;

/// Reads the input to its end and writes the report that the plan asks for. Once its first byte is
/// written nothing but the writer can fail, and a flush ends the run. What is returned is how much
/// the plan's miner did, if anything was mined: items are only counted, and counted sets are known.
///
/// `Input` has a fault of the bytes or of reading them, `Mine` says that there are more sets than
/// the plan's limit, and `Write` that the writer failed. Out of memory is a fault in the first two.
/// What the reader has left is said only if it failed.
pub fn run<R: RandomSource + Threads + Sync, S: Source, W: Sink>(
    rt: &R,
    alloc: Global,
    plan: &Plan,
    reader: &mut S,
    writer: &mut W,
) -> Result<Done, RunFault>
    requires reader { S.has_failed reader.old ≡ false }
    requires open { S.at_end reader.old ≡ false }
    requires writer { W.has_failed writer.old ≡ false }

    // What is written, for a reader and a writer that report their bytes.
    ensures report { OnOk result (WritesReport (S.left reader.old) plan.now.question (W.taken writer.old) (W.taken writer.new)) }
    ensures prefix { result ≡ Err RunFault.Write → WritesPrefix (S.left reader.old) plan.now.question (W.taken writer.old) (W.taken writer.new) }
    ensures whole { result ≡ Err RunFault.Write → W.ends_in_flush writer.new ≡ true → WritesReport (S.left reader.old) plan.now.question (W.taken writer.old) (W.taken writer.new) }
    ensures flushed { OnOk result (W.ends_in_flush writer.new ≡ true) }

    // What was done for it.
    ensures done { IfOk result (IsDoneFor plan.now.miner plan.now.question (S.left reader.old)) }

    // Of any reader and writer, files too.
    ensures nothing { IfErr result (λ fault. fault ≢ RunFault.Write → writer.new ≡ writer.old) }
    ensures ended { OnOk result (S.at_end reader.new ≡ true) }

    // When each fault comes.
    ensures fault { IfErr result (IsReportFault plan.now.question (S.left reader.old) (S.left reader.new) (S.has_failed reader.new)) }
    ensures reader_failed { S.has_failed reader.new ≡ true → (fault : InputFault) × (result ≡ Err (RunFault.Input fault)) }
    ensures write { (result ≡ Err RunFault.Write) ↔ (W.has_failed writer.new ≡ true) }
{
    let (made, done) = match reported(rt, alloc, plan, reader) {
        Ok(made) => made,
        Err(fault) => return Err(fault),
    };
    made.write(rt, writer)?;
    Ok(done)
}

/// The report that the plan asks for over an input, which is read to its end, and what else the run
/// comes to. Items of a FIMI input and of CSV baskets are counted while it is read.
pub fn reported<R: RandomSource + Threads + Sync, S: Source>(
    rt: &R,
    alloc: Global,
    plan: &Plan,
    reader: &mut S,
) -> Result<(PreparedReport, Done), RunFault>
    requires working { S.has_failed reader.old ≡ false }
    requires open { S.at_end reader.old ≡ false }
    ensures made { MakesReport plan.now.question (S.left reader.old) (S.left reader.new) (S.has_failed reader.new) result }
    ensures done { IfOk result (λ made. IsDoneFor plan.now.miner plan.now.question (S.left reader.old) made.1) }
    ensures ended { OnOk result (S.at_end reader.new ≡ true) }
{
    match (plan.ask(), plan.layout().form) {
        (Ask::Items, Form::Fimi) => report_items(rt, alloc, plan, reader),
        (Ask::Items, Form::Baskets) => report_named_items(rt, alloc, plan, reader),
        _ => report_input(rt, alloc, plan, reader),
    }
}

/// The same, made from all that the input says.
#[tactic(auto, using(crate::proofs::ResultLemmas::after_any, crate::proofs::DoneLemmas::done_in))]
fn report_input<R: RandomSource + Threads + Sync, S: Source>(
    rt: &R,
    alloc: Global,
    plan: &Plan,
    reader: &mut S,
) -> Result<(PreparedReport, Done), RunFault>
    requires working { S.has_failed reader.old ≡ false }
    requires open { S.at_end reader.old ≡ false }
    ensures made { MakesReport plan.now.question (S.left reader.old) (S.left reader.new) (S.has_failed reader.new) result }
    ensures done { IfOk result (λ made. IsDoneFor plan.now.miner plan.now.question (S.left reader.old) made.1) }
    ensures ended { OnOk result (S.at_end reader.new ≡ true) }
{
    let names = Names::none(alloc);
    match Contents::read(rt, alloc, plan.layout(), names, plan.workers(), reader) {
        Ok(contents) => report_contents(rt, alloc, contents, plan),
        Err(fault) => Err(RunFault::Input(fault)),
    }
}

/// The report that the plan asks for over what an input says.
fn report_contents<R: Threads + Sync>(
    rt: &R,
    alloc: Global,
    contents: Contents,
    plan: &Plan,
) -> Result<(PreparedReport, Done), RunFault>
    ensures ok { IfOk result (λ made. outcome_for contents plan.now.question ≡ Ok (prepared_text made.0)) }
    ensures done { IfOk result (λ made. made.1 ≡ done_for plan.now.miner plan.now.question contents) }
    ensures err { IfErr result (IsContentsFault (outcome_for contents plan.now.question)) }
{
    match contents {
        Contents::Baskets(database, names) => {
            let plan = plan_for(&database, plan);
            Ok(report_baskets(rt, alloc, database, &names, &plan)?)
        }
        Contents::Counts(combined, names) => match listing(alloc, plan, &combined) {
            Ok(frequent) => {
                let made = report_listing(rt, alloc, frequent, &names, plan)?;
                Ok((made, Done::of_counted_sets()))
            }
            Err(fault) => Err(RunFault::Input(fault)),
        },
    }
}

/// The report that the plan asks for over baskets.
fn report_baskets<R: Threads + Sync>(
    rt: &R,
    alloc: Global,
    database: Database,
    names: &Option<Names>,
    plan: &Plan,
) -> Result<(PreparedReport, Done), MineFault>
    ensures ok { IfOk result (λ made. report_of_baskets database names.now plan.now.question ≡ Ok (prepared_text made.0)) }
    ensures done { IfOk result (λ made. made.1 ≡ done_over plan.now.miner plan.now.question database) }
    ensures err { (fault : MiningFault) → result ≡ Err fault → fault ≢ MineFault.Memory → report_of_baskets database names.now plan.now.question ≡ Err fault }
{
    let style = style_of(names, plan.layout().separator);
    let ask = plan.ask();
    if let Ask::Items = ask {
        let counts = count_shared(rt, alloc, database.baskets(), cutting(plan), &Open)?;
        let minimum = plan.minimum();
        let total = database.total();
        let text = items_report(alloc, &counts, minimum, total, style)?;
        let done = Done::of_items(greatest_count(&counts));
        return Ok((PreparedReport::Text(text), done));
    }
    let (frequent, work, greatest) = mine_in_place(rt, alloc, database, plan, &Open)?;
    let workers = plan.workers();
    let made = PreparedReport::of_frequent(rt, alloc, frequent, ask, style, workers)?;
    let done = Done {
        work: Some(work),
        greatest: Some(greatest),
    };
    Ok((made, done))
}
