//! What an input says, whatever is asked of it.
ghost use Rattle.std.specs.Prelude.{◌≡◌, false, true, OnOk};
ghost use Rattle.basket_counts.specs.Counts.{counts_of};
ghost use Rattle.basket_csv.specs.Counts.{named_counts_of};
ghost use Rattle.basket_parts.specs.CombinedCounts.{combined_of};
ghost use Rattle.basket_outcome.specs.declared.contents.Contents.TheVariants as contents;
ghost use Rattle.basket_read.specs.Fault.{IsDefined, IsRead, Reads, result_and_then};
ghost use Rattle.basket_outcome.specs.Contents.{FailsIn, by_names, by_numbers, contents_of, named_combined_of, wording_with};
ghost use Rattle.basket_report.specs.Style.{wording_of};

use basket_core::{Database, Source};
use basket_counts::read_counts;
use basket_csv::{Dialect, read_baskets, read_named_counts, read_single};
use basket_names::Names;
use basket_parts::CombinedCounts;
use basket_plan::{Form, Layout};
use basket_read::{ReadFault, read_fimi_shared};
use basket_report::Style;
use std::alloc::Global;
use std::random::RandomSource;
use std::thread::Threads;

/// What an input says, and for CSV the names of its items.
#[derive(Drop)]
pub enum Contents {
    Baskets(Database, Option<Names>),
    /// Sets with their counts.
    Counts(CombinedCounts, Option<Names>),
}

impl Contents {
    /// Reads an input to its end, by this many workers except counted sets in CSV. In CSV the known names
    /// have the first numbers.
    #[tactic(auto, using(crate::proofs::ContentsLemmas::still))]
    pub fn read<R: RandomSource + Threads + Sync, S: Source>(
        rt: &R,
        alloc: Global,
        layout: Layout,
        known: Names,
        workers: u32,
        reader: &mut S,
    ) -> Result<Self, ReadFault>
        requires working { S.has_failed reader.old ≡ false }
        requires open { S.at_end reader.old ≡ false }
        ensures read { Reads IsDefined (contents_of layout known) (FailsIn layout.form (S.left reader.old) (S.left reader.new)) (S.left reader.old) (S.has_failed reader.new) result }
        ensures ended { OnOk result (S.at_end reader.new ≡ true) }
    {
        let dialect = Dialect {
            separator: layout.separator,
            header: layout.header,
        };
        match layout.form {
            Form::Fimi => numbered(read_fimi_shared(rt, alloc, reader, workers)),
            Form::Baskets => named(read_baskets(
                rt,
                alloc,
                reader,
                dialect,
                layout.weighted,
                known,
                workers,
            )),
            Form::Single => named(read_single(rt, alloc, reader, dialect, known, workers)),
            Form::Counts => counted(read_combined(rt, alloc, reader, workers)),
            Form::CsvCounts => named_counts(read_named_combined(
                rt, alloc, reader, dialect, known, workers,
            )),
        }
    }
}

/// How a report writes items: as the input does, with this separator for CSV.
pub fn style_of(names: &Option<Names>, separator: u8) -> Style<'_>
    ensures { wording_of result ≡ wording_with separator names.now }
{
    match names {
        Some(names) => Style::Names { names, separator },
        None => Style::Numbers,
    }
}

/// Reads counted sets to their end, by this many workers, and merges equal ones.
fn read_combined<R: Threads + Sync, S: Source>(
    rt: &R,
    alloc: Global,
    reader: &mut S,
    workers: u32,
) -> Result<CombinedCounts, ReadFault>
    requires working { S.has_failed reader.old ≡ false }
    requires open { S.at_end reader.old ≡ false }
    ensures read { Reads IsDefined (λ bytes. result_and_then combined_of (counts_of bytes)) IsRead (S.left reader.old) (S.has_failed reader.new) result }
    ensures ended { OnOk result (S.at_end reader.new ≡ true) }
{
    match read_counts(rt, alloc, reader, workers) {
        Ok(lines) => CombinedCounts::of(alloc, lines),
        Err(fault) => Err(fault),
    }
}

/// Reads counted sets of names to their end, by this many workers, and merges equal ones.
fn read_named_combined<R: RandomSource + Threads + Sync, S: Source>(
    rt: &R,
    alloc: Global,
    reader: &mut S,
    dialect: Dialect,
    known: Names,
    workers: u32,
) -> Result<(CombinedCounts, Names), ReadFault>
    requires working { S.has_failed reader.old ≡ false }
    requires open { S.at_end reader.old ≡ false }
    ensures read { Reads IsDefined (λ bytes. result_and_then named_combined_of (named_counts_of dialect.separator dialect.header known bytes)) IsRead (S.left reader.old) (S.has_failed reader.new) result }
    ensures ended { OnOk result (S.at_end reader.new ≡ true) }
{
    let (lines, names) = match read_named_counts(rt, alloc, reader, dialect, known, workers) {
        Ok(read) => read,
        Err(fault) => return Err(fault),
    };
    match CombinedCounts::of(alloc, lines) {
        Ok(combined) => Ok((combined, names)),
        Err(fault) => Err(fault),
    }
}

fn numbered(read: Result<Database, ReadFault>) -> Result<Contents, ReadFault>
    ensures { result ≡ by_numbers contents.Baskets read }
{
    Ok(Contents::Baskets(read?, None))
}

fn named(read: Result<(Database, Names), ReadFault>) -> Result<Contents, ReadFault>
    ensures { result ≡ by_names contents.Baskets read }
{
    let (database, names) = read?;
    Ok(Contents::Baskets(database, Some(names)))
}

fn counted(read: Result<CombinedCounts, ReadFault>) -> Result<Contents, ReadFault>
    ensures { result ≡ by_numbers contents.Counts read }
{
    Ok(Contents::Counts(read?, None))
}

fn named_counts(read: Result<(CombinedCounts, Names), ReadFault>) -> Result<Contents, ReadFault>
    ensures { result ≡ by_names contents.Counts read }
{
    let (combined, names) = read?;
    Ok(Contents::Counts(combined, Some(names)))
}
