//! Reading a FIMI input batch by batch.
ghost use Rattle.std.specs.Prelude.{◌≡◌, ◌<◌, IfOk, OnOk, List, false, true};
ghost use Rattle.basket_sets.specs.declared.weighted.Weighted.{Weighted};
ghost use Rattle.basket_read.specs.GatheredBaskets.{AreGathered, Gathers};
ghost use Rattle.basket_read.specs.Read.{ReadsFimi};

use crate::bytes::fill;
use crate::fault::ReadFault;
use crate::input::Input;
use crate::item_counts::ItemCounts;
use crate::line_reader::LineReader;
use basket_stream::Source;
use std::alloc::Global;

/// Reads an input to its end in batches of this many bytes. Its baskets may be counted.
pub(crate) fn read_batches<F: LineReader, S: Source>(
    line_reader: &F,
    alloc: Global,
    reader: &mut S,
    most: usize,
    counting: bool,
) -> Result<ItemCounts, ReadFault>
    requires ready { F.is_ready line_reader.now }
    requires fresh { S.has_failed reader.old ≡ false }
    requires open { S.at_end reader.old ≡ false }
    requires some { 0 < most }
    ensures read { ReadsFimi (Gathers counting) (S.left reader.old) (S.left reader.new) (S.has_failed reader.new) result }
    ensures ended { OnOk result (S.at_end reader.new ≡ true) }
    ensures some { IfOk result (λ counts. (baskets : List Weighted) × AreGathered counting counts baskets) }
{
    let mut buffer = Vec::new(alloc);
    let mut input = Input::new(alloc, counting);
    'reading: loop {
        let count = fill(reader, &mut buffer, most)?;
        input.take(line_reader, &buffer[..count])?;
        if reader.failed() {
            return Err(input.fault_so_far().unwrap_or(ReadFault::Read));
        }
        if count < most {
            return input.finish();
        }
    }
}
