//! The sets that are asked for.
ghost use Rattle.std.specs.Prelude.{◌≡◌, false, true, IfOk, OnOk, map};
ghost use Rattle.basket_read.specs.Fault.{AreDefined, IsRead, Reads};
ghost use Rattle.basket_outcome.specs.Contents.{asked_in, named_sets_of};

use basket_core::{Itemset, Source};
use basket_counts::read_sets;
use basket_csv::{Dialect, read_named_counts};
use basket_names::Names;
use basket_plan::Layout;
use basket_read::{CountedLine, ReadFault};
use std::alloc::{AllocError, Global};
use std::random::RandomSource;
use std::thread::Threads;

/// Reads sets to their end, by this many workers, as numbers or as CSV names like the layout's items,
/// with the names of their items; numbers have none. Their counts, if they have any, are ignored.
pub fn read_asked<R: RandomSource + Threads + Sync, S: Source>(
    rt: &R,
    alloc: Global,
    layout: Layout,
    workers: u32,
    reader: &mut S,
) -> Result<(Vec<Itemset>, Names), ReadFault>
    requires working { S.has_failed reader.old ≡ false }
    requires open { S.at_end reader.old ≡ false }
    ensures read { Reads AreDefined (asked_in layout) IsRead (S.left reader.old) (S.has_failed reader.new) result }
    ensures ended { OnOk result (S.at_end reader.new ≡ true) }
{
    if layout.form.has_names() {
        return read_named_sets(rt, alloc, layout.separator, workers, reader);
    }
    match read_sets(rt, alloc, reader, workers) {
        Ok(sets) => Ok((sets, Names::none(alloc))),
        Err(fault) => Err(fault),
    }
}

/// Reads sets of names in CSV to their end, by this many workers, where each record has a count before
/// its names.
fn read_named_sets<R: RandomSource + Threads + Sync, S: Source>(
    rt: &R,
    alloc: Global,
    separator: u8,
    workers: u32,
    reader: &mut S,
) -> Result<(Vec<Itemset>, Names), ReadFault>
    requires working { S.has_failed reader.old ≡ false }
    requires open { S.at_end reader.old ≡ false }
    ensures read { Reads AreDefined (named_sets_of separator) IsRead (S.left reader.old) (S.has_failed reader.new) result }
    ensures ended { OnOk result (S.at_end reader.new ≡ true) }
{
    let dialect = Dialect {
        separator,
        header: false,
    };
    let known = Names::none(alloc);
    let (lines, names) = match read_named_counts(rt, alloc, reader, dialect, known, workers) {
        Ok(read) => read,
        Err(fault) => return Err(fault),
    };
    Ok((without_counts(alloc, lines)?, names))
}

/// The sets of the lines.
fn without_counts(alloc: Global, lines: Vec<CountedLine>) -> Result<Vec<Itemset>, AllocError>
    ensures { IfOk result (λ sets. sets.items ≡ map (λ line. line.set) lines.items) }
{
    lines.into_iter().map(|line| line.set).collect(alloc)
}
