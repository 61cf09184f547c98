//! A report that is made but not written yet.
ghost use Rattle.std.specs.Prelude.{◌≡◌, ◌≢◌, ◌↔◌, ◌==◌, List, true, false, IfOk, IsOk, OnErr, OnOk, filter, length};
ghost use Rattle.std.specs.Io.KnownBytes.{Appends};
ghost use Rattle.basket_report.specs.Bytes.{TakesPrefix, joined};
ghost use Rattle.basket_report.specs.Report.{report_of};
ghost use Rattle.basket_report.specs.Style.{wording_of};
ghost use Rattle.basket_rules.specs.Listed.{IsListingOf};
ghost use Rattle.basket_sets.specs.declared.minimum.Minimum.{Minimum as Bound};
ghost use Rattle.basket_sets.specs.declared.weighted.Weighted.{Weighted as Basket};
ghost use Rattle.basket_outcome.specs.Counted.{IsWhole};
ghost use Rattle.basket_outcome.specs.Outcome.{text_in, text_of};
ghost use Rattle.basket_outcome.specs.Prepared.{prepared_text};

use basket_core::{CountedSets, Failed, Frequent, MemSink, Sink};
use basket_plan::Ask;
use basket_report::{SetLines, Style, rules_report, sets_report, write_texts};
use basket_rules::{closed_shared, maximal_shared};
use std::alloc::{AllocError, Global};
use std::thread::Threads;

/// A report: its text, texts that are it one after another, or the sets whose lines are made while
/// they are written.
#[derive(Drop)]
pub enum PreparedReport {
    Text(Vec<u8>),
    Texts(Vec<Vec<u8>>),
    Sets(CountedSets, SetLines),
}

impl PreparedReport {
    /// The report of the sets, whose lines this many workers will make.
    pub fn of_sets(
        alloc: Global,
        sets: CountedSets,
        style: Style<'_>,
        workers: u32,
    ) -> Result<Self, AllocError>
        ensures { IfOk result (λ made. prepared_text made ≡ report_of (wording_of style.entry) sets) }
    {
        match style {
            Style::Numbers => {
                let lines = SetLines::new(alloc, &sets, workers)?;
                Ok(PreparedReport::Sets(sets, lines))
            }
            Style::Names { .. } => Ok(PreparedReport::Text(sets_report(alloc, &sets, style)?)),
        }
    }

    /// The report on frequent sets: the items among them, all of them, those that are closed or
    /// maximal, or the rules, whose texts this many workers make.
    pub fn of_frequent<R: Threads + Sync>(
        rt: &R,
        alloc: Global,
        frequent: Frequent,
        ask: Ask,
        style: Style<'_>,
        workers: u32,
    ) -> Result<Self, AllocError>
        ensures lists { IfOk result (λ made. IsWhole ask frequent → prepared_text made ≡ text_in (wording_of style.entry) ask frequent) }
        ensures baskets { IfOk result (λ made. ask ≢ Ask.Items → (baskets : List Basket) (minimum : Bound) → IsListingOf baskets minimum frequent
            → prepared_text made ≡ text_of (wording_of style.entry) ask baskets minimum) }
    {
        match ask {
            Ask::Items => {
                let items = single_items(alloc, frequent.sets())?;
                PreparedReport::of_sets(alloc, items, style, workers)
            }
            Ask::Sets => PreparedReport::of_sets(alloc, frequent.into_sets(), style, workers),
            Ask::Closed => {
                let sets = closed_shared(rt, alloc, &frequent, workers)?;
                PreparedReport::of_sets(alloc, sets, style, workers)
            }
            Ask::Maximal => {
                let sets = maximal_shared(rt, alloc, &frequent, workers)?;
                PreparedReport::of_sets(alloc, sets, style, workers)
            }
            Ask::Rules(confidence) => {
                let texts = rules_report(rt, alloc, &frequent, confidence, style, workers)?;
                Ok(PreparedReport::Texts(texts))
            }
        }
    }

    /// Writes the report to its end and flushes. If the sink fails, it has taken a prefix of it,
    /// and all of it if only the flush failed.
    pub fn write<R: Threads + Sync, W: Sink>(self, rt: &R, writer: &mut W) -> Result<(), Failed>
        requires { W.has_failed writer.old ≡ false }
        ensures ok { OnOk result (Appends (W.taken writer.old) (W.taken writer.new) (prepared_text self)) }
        ensures err { OnErr result (TakesPrefix (W.taken writer.old) (W.taken writer.new) (prepared_text self)) }
        ensures whole { W.ends_in_flush writer.new ≡ true → Appends (W.taken writer.old) (W.taken writer.new) (prepared_text self) }
        ensures flushed { OnOk result (W.ends_in_flush writer.new ≡ true) }
        ensures failed { (W.has_failed writer.new ≡ false) ↔ IsOk result }
    {
        match self {
            PreparedReport::Text(text) => write_texts(writer, &[text]),
            PreparedReport::Texts(texts) => write_texts(writer, &texts),
            PreparedReport::Sets(sets, mut lines) => lines.write(rt, &sets, writer),
        }
    }

    /// The text of the report.
    pub fn into_text<R: Threads + Sync>(self, rt: &R, alloc: Global) -> Result<Vec<u8>, AllocError>
        ensures { IfOk result (λ text. text.items ≡ prepared_text self) }
    {
        match self {
            PreparedReport::Text(text) => Ok(text),
            PreparedReport::Texts(texts) => text_of(alloc, texts),
            PreparedReport::Sets(sets, mut lines) => {
                let mut sink = MemSink::unbounded(alloc);
                match lines.write(rt, &sets, &mut sink) {
                    Ok(()) => Ok(sink.into_bytes()),
                    Err(_) => Err(AllocError),
                }
            }
        }
    }
}

/// The texts as one. If there is only one, it is not copied.
fn text_of(alloc: Global, texts: Vec<Vec<u8>>) -> Result<Vec<u8>, AllocError>
    ensures { IfOk result (λ all. all.items ≡ joined texts.items) }
{
    let mut all = Vec::new(alloc);
    for mut text in texts {
        if all.is_empty() {
            all = text;
        } else {
            all.append(&mut text)?;
        }
    }
    Ok(all)
}

/// The sets of one item.
fn single_items(alloc: Global, sets: &CountedSets) -> Result<CountedSets, AllocError>
    ensures { IfOk result (λ items. items ≡ filter (λ c. length c.set == 1) sets.now) }
{
    let mut items = CountedSets::empty(alloc)?;
    for index in 0..sets.len() {
        if sets.size(index) == 1 {
            items.push(sets.set(alloc, index)?, sets.count(index))?;
        }
    }
    Ok(items)
}
