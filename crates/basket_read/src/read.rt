//! Reading a FIMI input.
ghost use Rattle.std.specs.Prelude.{◌≡◌, ◌≤◌, IfOk, OnOk, false, true};
ghost use Rattle.basket_read.specs.Fault.{IsDefined};
ghost use Rattle.basket_read.specs.ItemCounts.{AreLightCounts, CountsDefined};
ghost use Rattle.basket_read.specs.Read.{ReadsFimi};

use crate::batches::read_batches;
use crate::fault::ReadFault;
use crate::item_counts::ItemCounts;
use crate::line_reader::{Alone, Workers};
use basket_sets::Database;
use basket_stream::Source;
use std::alloc::Global;
use std::thread::Threads;

/// The greatest block.
pub const MAX_BLOCK: usize = 1_048_576;

/// The block of `read_fimi`.
pub(crate) const BLOCK: usize = 65_536;

/// How many bytes workers count side by side before the next are taken in. With fewer, threads are
/// started more often, and it may take milliseconds until all of them run.
const BATCH: usize = 8_388_608;

/// The same if baskets are kept. Those of a batch take memory twice until they are appended.
const KEPT_BATCH: usize = BATCH / 4;

/// Reads a FIMI input to its end, in blocks of 65,536 bytes.
pub fn read_fimi<S: Source>(alloc: Global, reader: &mut S) -> Result<Database, ReadFault>
    requires working { S.has_failed reader.old ≡ false }
    requires open { S.at_end reader.old ≡ false }
    ensures read { ReadsFimi IsDefined (S.left reader.old) (S.left reader.new) (S.has_failed reader.new) result }
    ensures ended { OnOk result (S.at_end reader.new ≡ true) }
{
    read_fimi_by(alloc, reader, BLOCK)
}

/// Reads a FIMI input to its end, a block at a time.
pub fn read_fimi_by<S: Source>(
    alloc: Global,
    reader: &mut S,
    block: usize,
) -> Result<Database, ReadFault>
    requires fresh { S.has_failed reader.old ≡ false }
    requires open { S.at_end reader.old ≡ false }
    requires some { 1 ≤ block }
    requires few { block ≤ MAX_BLOCK }
    ensures read { ReadsFimi IsDefined (S.left reader.old) (S.left reader.new) (S.has_failed reader.new) result }
    ensures ended { OnOk result (S.at_end reader.new ≡ true) }
{
    read_batches(&Alone, alloc, reader, block, false).map(ItemCounts::into_rest)
}

/// Reads a FIMI input to its end, in blocks of 65,536 bytes, and counts its items. Baskets are kept
/// only if their items are too great for a table.
pub fn count_fimi<S: Source>(alloc: Global, reader: &mut S) -> Result<ItemCounts, ReadFault>
    requires working { S.has_failed reader.old ≡ false }
    requires open { S.at_end reader.old ≡ false }
    ensures counted { ReadsFimi CountsDefined (S.left reader.old) (S.left reader.new) (S.has_failed reader.new) result }
    // Even if the reader doesn't report its bytes.
    ensures ended { OnOk result (S.at_end reader.new ≡ true) }
    ensures light { IfOk result AreLightCounts }
{
    read_batches(&Alone, alloc, reader, BLOCK, true)
}

/// Reads a FIMI input to its end, as `read_fimi` does, by this many workers.
pub fn read_fimi_shared<R: Threads + Sync, S: Source>(
    rt: &R,
    alloc: Global,
    reader: &mut S,
    workers: u32,
) -> Result<Database, ReadFault>
    requires working { S.has_failed reader.old ≡ false }
    requires open { S.at_end reader.old ≡ false }
    ensures read { ReadsFimi IsDefined (S.left reader.old) (S.left reader.new) (S.has_failed reader.new) result }
    ensures ended { OnOk result (S.at_end reader.new ≡ true) }
{
    if workers < 2 {
        return read_fimi(alloc, reader);
    }
    let line_reader = Workers { rt, count: workers };
    read_batches(&line_reader, alloc, reader, KEPT_BATCH, false).map(ItemCounts::into_rest)
}

/// Reads a FIMI input to its end and counts its items, as `count_fimi` does, by this many workers.
pub fn count_fimi_shared<R: Threads + Sync, S: Source>(
    rt: &R,
    alloc: Global,
    reader: &mut S,
    workers: u32,
) -> Result<ItemCounts, ReadFault>
    requires working { S.has_failed reader.old ≡ false }
    requires open { S.at_end reader.old ≡ false }
    ensures counted { ReadsFimi CountsDefined (S.left reader.old) (S.left reader.new) (S.has_failed reader.new) result }
    // Even if the reader doesn't report its bytes.
    ensures ended { OnOk result (S.at_end reader.new ≡ true) }
    ensures light { IfOk result AreLightCounts }
{
    if workers < 2 {
        return count_fimi(alloc, reader);
    }
    let line_reader = Workers { rt, count: workers };
    read_batches(&line_reader, alloc, reader, BATCH, true)
}
