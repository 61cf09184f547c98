//! Reading a list of counted sets.
ghost use Rattle.std.specs.Prelude.{◌≡◌, ◌≤◌, false, true, length, OnOk};
ghost use Rattle.basket_counts.specs.Counts.{sets_of_bytes, counts_of, entries_in};
ghost use Rattle.basket_counts.specs.ListedSets.{AreEntries};
ghost use Rattle.basket_read.specs.Fimi.{MOST_BYTES};
ghost use Rattle.basket_read.specs.Fault.{Reads, ReturnsBy, IsRead, IsDefinedList};

use crate::halves::listed_shared;
use crate::listed_sets::ListedSets;
use basket_read::{CountedLine, MAX_BYTES, ReadFault, take_in, text_of};
use basket_sets::Itemset;
use basket_stream::Source;
use std::alloc::Global;
use std::thread::Threads;

/// Reads a list of sets to its end, one set a line, by this many workers, and returns the sets in
/// its order. Their counts may be there or not, and are ignored.
#[tactic(auto, using(crate::proofs::ReadLemmas::refused))]
pub fn read_sets<R: Threads + Sync, S: Source>(
    rt: &R,
    alloc: Global,
    reader: &mut S,
    workers: u32,
) -> Result<Vec<Itemset>, ReadFault>
    requires working { S.has_failed reader.old ≡ false }
    requires open { S.at_end reader.old ≡ false }
    ensures read { Reads IsDefinedList sets_of_bytes IsRead (S.left reader.old) (S.has_failed reader.new) result }
    ensures ended { OnOk result (S.at_end reader.new ≡ true) }
{
    let listed = read_listed(rt, alloc, reader, workers)?;
    listed.sets(alloc)
}

/// Reads a list of counted sets to its end, one set a line, by this many workers, and returns the
/// sets with their counts, in its order.
#[tactic(auto, using(crate::proofs::ReadLemmas::refused))]
pub fn read_counts<R: Threads + Sync, S: Source>(
    rt: &R,
    alloc: Global,
    reader: &mut S,
    workers: u32,
) -> Result<Vec<CountedLine>, ReadFault>
    requires working { S.has_failed reader.old ≡ false }
    requires open { S.at_end reader.old ≡ false }
    ensures read { Reads IsDefinedList counts_of IsRead (S.left reader.old) (S.has_failed reader.new) result }
    ensures ended { OnOk result (S.at_end reader.new ≡ true) }
{
    let listed = read_listed(rt, alloc, reader, workers)?;
    listed.counts()
}

/// Reads a list to its end.
#[tactic(auto, using(crate::proofs::ReadLemmas::untaken, crate::proofs::ReadLemmas::taken))]
fn read_listed<R: Threads + Sync, S: Source>(
    rt: &R,
    alloc: Global,
    reader: &mut S,
    workers: u32,
) -> Result<ListedSets, ReadFault>
    requires working { S.has_failed reader.old ≡ false }
    requires open { S.at_end reader.old ≡ false }
    ensures read { Reads AreEntries entries_in IsRead (S.left reader.old) (S.has_failed reader.new) result }
    ensures ended { OnOk result (S.at_end reader.new ≡ true) }
{
    let bytes = take_in(alloc, reader)?;
    listed_of(rt, alloc, &bytes, workers)
}

/// What the bytes of an input say, or their first fault.
fn listed_of<R: Threads + Sync>(
    rt: &R,
    alloc: Global,
    bytes: &[u8],
    workers: u32,
) -> Result<ListedSets, ReadFault>
    ensures said { ReturnsBy AreEntries result (entries_in bytes.now) }
    ensures within { OnOk result (length bytes.now ≤ MOST_BYTES) }
{
    let most = bytes.len().min(MAX_BYTES);
    let listed = listed_shared(rt, alloc, 0, text_of(&bytes[..most]), workers)?;
    if most < bytes.len() {
        return Err(ReadFault::TooLong);
    }
    Ok(listed)
}
