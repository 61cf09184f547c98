//! Reading a CSV input.
ghost use Rattle.std.specs.Prelude.{◌≡◌, false, true, IfOk, OnOk};
ghost use Rattle.basket_csv.specs.Counts.{named_counts_of};
ghost use Rattle.basket_csv.specs.Csv.{baskets_of_csv, pairs_of_csv};
ghost use Rattle.basket_read.specs.Fault.{Reads, IsDefined, AreDefined, IsRead};
ghost use Rattle.basket_csv.specs.Read.{AreCountsNamed};
ghost use Rattle.basket_read.specs.ItemCounts.{AreLightCounts};

use crate::baskets::Baskets;
use crate::counts::Counts;
use crate::dialect::Dialect;
use crate::pairs::Pairs;
use crate::parts::{parts_of, parts_of_pairs};
use crate::read_named::say;
use crate::reading::Reading;
use basket_names::{Names, Seed};
use basket_read::{CountedLine, ItemCounts, ReadFault, take_in};
use basket_sets::Database;
use basket_stream::Source;
use std::alloc::Global;
use std::random::RandomSource;
use std::thread::Threads;

/// Reads a CSV input to its end, by this many workers. Each record is a basket of names: its fields,
/// without the spaces and tabs at their ends and without the empty ones. With `weight` the first
/// field of each record except the header is the basket's weight. The known names keep their
/// numbers, and new ones are numbered after them.
pub fn read_baskets<R: RandomSource + Threads + Sync, S: Source>(
    rt: &R,
    alloc: Global,
    reader: &mut S,
    dialect: Dialect,
    weight: bool,
    known: Names,
    workers: u32,
) -> Result<(Database, Names), ReadFault>
    requires working { S.has_failed reader.old ≡ false }
    requires open { S.at_end reader.old ≡ false }
    ensures read { Reads IsDefined (baskets_of_csv dialect.separator dialect.header weight known) IsRead (S.left reader.old) (S.has_failed reader.new) result }
    ensures ended { OnOk result (S.at_end reader.new ≡ true) }
{
    let bytes = take_in(alloc, reader)?;
    let reading = Reading {
        alloc,
        seed: Seed::new(rt),
        dialect,
        weighted: weight,
        counting: false,
    };
    let parts = parts_of(&bytes, workers);
    let (counts, names) = say::<R, Baskets>(rt, reading, &bytes, known, parts)?;
    Ok((counts.rest, names))
}

/// Reads a CSV input to its end, as `read_baskets` does, and counts the items of its baskets.
pub fn count_baskets<R: RandomSource + Threads + Sync, S: Source>(
    rt: &R,
    alloc: Global,
    reader: &mut S,
    dialect: Dialect,
    weight: bool,
    known: Names,
    workers: u32,
) -> Result<(ItemCounts, Names), ReadFault>
    requires working { S.has_failed reader.old ≡ false }
    requires open { S.at_end reader.old ≡ false }
    ensures counted { Reads AreCountsNamed (baskets_of_csv dialect.separator dialect.header weight known) IsRead (S.left reader.old) (S.has_failed reader.new) result }
    ensures ended { OnOk result (S.at_end reader.new ≡ true) }
    ensures light { IfOk result (λ counted. AreLightCounts counted.0) }
{
    let bytes = take_in(alloc, reader)?;
    let reading = Reading {
        alloc,
        seed: Seed::new(rt),
        dialect,
        weighted: weight,
        counting: true,
    };
    say::<R, Baskets>(rt, reading, &bytes, known, parts_of(&bytes, workers))
}

/// Reads a CSV input to its end, by this many workers. Each record is a pair: the id of a basket and
/// a name in it, both without the spaces and tabs at their ends. A record without a name is ignored.
/// The known names keep their numbers, and new ones are numbered after them.
pub fn read_single<R: RandomSource + Threads + Sync, S: Source>(
    rt: &R,
    alloc: Global,
    reader: &mut S,
    dialect: Dialect,
    known: Names,
    workers: u32,
) -> Result<(Database, Names), ReadFault>
    requires working { S.has_failed reader.old ≡ false }
    requires open { S.at_end reader.old ≡ false }
    ensures read { Reads IsDefined (pairs_of_csv dialect.separator dialect.header known) IsRead (S.left reader.old) (S.has_failed reader.new) result }
    ensures ended { OnOk result (S.at_end reader.new ≡ true) }
{
    let bytes = take_in(alloc, reader)?;
    let reading = Reading {
        alloc,
        seed: Seed::new(rt),
        dialect,
        weighted: false,
        counting: false,
    };
    let parts = parts_of_pairs(&bytes, dialect.separator, workers);
    say::<R, Pairs>(rt, reading, &bytes, known, parts)
}

/// Reads a CSV input to its end, by this many workers. Each record is a count and a set of names: its
/// first field is the count, and the others are the names, without the spaces and tabs at their ends
/// and without the empty ones. The known names keep their numbers, and new ones are numbered after
/// them. A set's line is the number of its record; the header, if there is one, is number 1.
pub fn read_named_counts<R: RandomSource + Threads + Sync, S: Source>(
    rt: &R,
    alloc: Global,
    reader: &mut S,
    dialect: Dialect,
    known: Names,
    workers: u32,
) -> Result<(Vec<CountedLine>, Names), ReadFault>
    requires working { S.has_failed reader.old ≡ false }
    requires open { S.at_end reader.old ≡ false }
    ensures read { Reads AreDefined (named_counts_of dialect.separator dialect.header known) IsRead (S.left reader.old) (S.has_failed reader.new) result }
    ensures ended { OnOk result (S.at_end reader.new ≡ true) }
{
    let bytes = take_in(alloc, reader)?;
    let reading = Reading {
        alloc,
        seed: Seed::new(rt),
        dialect,
        weighted: false,
        counting: false,
    };
    say::<R, Counts>(rt, reading, &bytes, known, parts_of(&bytes, workers))
}
