//! Counting given sets over an input.
ghost use Rattle.std.specs.Prelude.{◌≡◌, ◌≢◌, ◌↔◌, true, false, Ok, Err, IfErr, IfOk, MatchResult, OnOk};
ghost use Rattle.basket_read.specs.declared.fault.ReadFault.{ReadFault as InputFault};
ghost use Rattle.basket_report.specs.Report.{report_of};
ghost use Rattle.basket_outcome.specs.Contents.{wording_with};
ghost use Rattle.basket.specs.Count.{IsCountFault, IsCountsFault, IsSumsFault, MakesCounts, WritesCounts, WritesCountsPrefix, counts_in, counts_over};
ghost use Rattle.basket_outcome.specs.Prepared.{prepared_text};
ghost use Rattle.mine_sets.specs.Asked.{asked_of};

use crate::workers::counting_workers;
use basket_core::{Counted, CountedSets, Itemset, Sink, Source};
use basket_names::Names;
use basket_outcome::{Contents, PreparedReport, RunFault, read_asked, style_of};
use basket_parts::CombinedCounts;
use basket_plan::CountPlan;
use mine_pieces::{Cutting, Open};
use mine_sets::{asked_for, count_sets};
use std::alloc::{AllocError, Global};
use std::random::RandomSource;
use std::thread::Threads;

/// Reads sets and an input to their ends, and writes the sets with their counts: the empty set
/// first, whose count is the weight of all baskets, then the others in their order, each once. Once
/// its first byte is written nothing but the writer can fail, and a flush ends the run.
///
/// `Sets` and `Input` have a fault of the bytes of one or of reading them, `Uncounted` says that a
/// counted input lacks a set, and `Write` that the writer failed. Out of memory is a fault in
/// `Sets`, `Input` or `Mine`. What a reader has left is said only if it failed.
pub fn run_count<R: RandomSource + Threads + Sync, S: Source, T: Source, W: Sink>(
    rt: &R,
    alloc: Global,
    plan: &CountPlan,
    sets: &mut S,
    reader: &mut T,
    writer: &mut W,
) -> Result<(), RunFault>
    requires sets { S.has_failed sets.old ≡ false }
    requires sets_open { S.at_end sets.old ≡ false }
    requires reader { T.has_failed reader.old ≡ false }
    requires reader_open { T.at_end reader.old ≡ false }
    requires writer { W.has_failed writer.old ≡ false }

    // What is written, for readers and a writer that report their bytes.
    ensures report { OnOk result (WritesCounts plan.now.layout (S.left sets.old) (T.left reader.old) (W.taken writer.old) (W.taken writer.new)) }
    ensures prefix { result ≡ Err RunFault.Write → WritesCountsPrefix plan.now.layout (S.left sets.old) (T.left reader.old) (W.taken writer.old) (W.taken writer.new) }
    ensures whole { result ≡ Err RunFault.Write → W.ends_in_flush writer.new ≡ true → WritesCounts plan.now.layout (S.left sets.old) (T.left reader.old) (W.taken writer.old) (W.taken writer.new) }
    ensures flushed { OnOk result (W.ends_in_flush writer.new ≡ true) }

    // Of any readers and writer, files too.
    ensures nothing { IfErr result (λ fault. fault ≢ RunFault.Write → writer.new ≡ writer.old) }
    ensures ended { OnOk result ((S.at_end sets.new ≡ true) × (T.at_end reader.new ≡ true)) }

    // When each fault comes.
    ensures fault { IfErr result (IsCountFault plan.now.layout (S.left sets.old) (S.has_failed sets.new) (T.left reader.old) (T.left reader.new) (T.has_failed reader.new)) }
    ensures sets_failed { S.has_failed sets.new ≡ true → (fault : InputFault) × (result ≡ Err (RunFault.Sets fault)) }
    ensures reader_failed { T.has_failed reader.new ≡ true → (fault : InputFault) × (result ≡ Err (RunFault.Input fault)) }
    ensures write { (result ≡ Err RunFault.Write) ↔ (W.has_failed writer.new ≡ true) }
{
    let made = match counts(rt, alloc, plan, sets, reader) {
        Ok(made) => made,
        Err(fault) => return Err(fault),
    };
    made.write(rt, writer)?;
    Ok(())
}

/// The sets with their counts, as a report that is not written yet.
#[tactic(auto, using(std::proofs::lemmas::Grind::common_steps, crate::proofs::ResultLemmas::after_any))]
fn counts<R: RandomSource + Threads + Sync, S: Source, T: Source>(
    rt: &R,
    alloc: Global,
    plan: &CountPlan,
    sets: &mut S,
    reader: &mut T,
) -> Result<PreparedReport, RunFault>
    requires sets { S.has_failed sets.old ≡ false }
    requires sets_open { S.at_end sets.old ≡ false }
    requires reader { T.has_failed reader.old ≡ false }
    requires reader_open { T.at_end reader.old ≡ false }
    ensures made { MakesCounts plan.now.layout (S.left sets.old) (S.has_failed sets.new) (T.left reader.old) (T.left reader.new) (T.has_failed reader.new) result }
    ensures ended { OnOk result ((S.at_end sets.new ≡ true) × (T.at_end reader.new ≡ true)) }
{
    let (sets, names) = match read_asked(rt, alloc, plan.layout(), plan.workers(), sets) {
        Ok(asked) => asked,
        Err(fault) => return Err(RunFault::Sets(fault)),
    };
    let contents = match Contents::read(rt, alloc, plan.layout(), names, plan.workers(), reader) {
        Ok(contents) => contents,
        Err(fault) => return Err(RunFault::Input(fault)),
    };
    counted(rt, alloc, plan, sets, contents)
}

/// The sets with their counts over what the input says.
fn counted<R: RandomSource + Threads + Sync>(
    rt: &R,
    alloc: Global,
    plan: &CountPlan,
    sets: Vec<Itemset>,
    contents: Contents,
) -> Result<PreparedReport, RunFault>
    ensures { let answer = counts_in plan.now.layout (asked_of sets.items) contents in
        MatchResult result (λ made. answer ≡ Ok (prepared_text made)) (IsCountsFault answer) }
{
    match contents {
        Contents::Baskets(database, names) => {
            let workers = counting_workers(&database, sets.len(), plan.workers());
            let cutting = Cutting::new(workers, plan.pieces());
            let counted = count_sets(rt, alloc, &database, sets, cutting, &Open)?;
            Ok(listed(alloc, &counted, &names, plan)?)
        }
        Contents::Counts(combined, names) => {
            let asked = asked_for(rt, alloc, sets)?;
            let counted = match sums(alloc, &combined, &asked) {
                Ok(counted) => counted,
                Err(fault) => return Err(fault),
            };
            Ok(listed(alloc, &counted, &names, plan)?)
        }
    }
}

/// The report of the sets.
fn listed(
    alloc: Global,
    counted: &[Counted],
    names: &Option<Names>,
    plan: &CountPlan,
) -> Result<PreparedReport, AllocError>
    ensures { IfOk result (λ made. prepared_text made ≡ report_of (wording_with plan.now.layout.separator names.now) counted.now) }
{
    let list = CountedSets::of_sets(alloc, counted)?;
    let style = style_of(names, plan.layout().separator);
    PreparedReport::of_sets(alloc, list, style, plan.workers())
}

/// The sets with the sums of their counts, or the first set without a count.
fn sums(
    alloc: Global,
    combined: &CombinedCounts,
    sets: &[Itemset],
) -> Result<Vec<Counted>, RunFault>
    ensures { MatchResult result (λ list. counts_over combined.now sets.now ≡ Ok list.items) (IsSumsFault combined.now sets.now) }
{
    let mut counted = Vec::with_capacity(alloc, sets.len())?;
    for (nth, set) in sets.iter().enumerate() {
        let Some(count) = combined.count_of(set.items()) else {
            return Err(RunFault::Uncounted { nth });
        };
        counted.push(Counted {
            set: set.copied(alloc)?,
            count,
        })?;
    }
    Ok(counted)
}
