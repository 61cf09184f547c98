//! Texts that workers read side by side.
ghost use Rattle.std.specs.Prelude.{◌≡◌, ◌+◌, length, IfOk, IfErr};
ghost use Rattle.std.specs.Thread.{IsSync};
ghost use Rattle.basket_read.specs.Cut.{cut_at};
ghost use Rattle.basket_read.specs.Fimi.{is_line_feed};
ghost use Rattle.basket_counts.specs.Text.{SaysFrom};

use crate::listed_sets::ListedSets;
use crate::text::listed_in;
use basket_read::{ReadFault, middle_of};
use std::alloc::Global;
use std::thread::{Threads, join};

/// What a text says that follows so many lines, or its first fault, by this many workers.
#[cycle(halves)]
pub fn listed_shared<R: Threads + Sync>(
    rt: &R,
    alloc: Global,
    before: u32,
    bytes: &[u8],
    workers: u32,
) -> Result<ListedSets, ReadFault>
    ensures { SaysFrom (before + 1) bytes.now result }
{
    let Some(end) = middle_of(bytes, workers) else {
        return listed_in(alloc, before, bytes);
    };
    let (prefix, rest) = bytes.split_at(end);
    let few = workers / 2;
    let others = workers - few;
    let (later, listed) = join(
        rt,
        || -> Result<ListedSets, ReadFault>
            requires { IsSync R.row }
            ensures { SaysFrom (before + length (cut_at is_line_feed prefix.entry.now).ended + 1) rest.entry.now result }
        { listed_shared(rt, alloc, lines_after(before, prefix)?, rest, others) },
        || -> Result<ListedSets, ReadFault>
            requires { IsSync R.row }
            ensures { SaysFrom (before + 1) prefix.entry.now result }
        { listed_shared(rt, alloc, before, prefix, few) },
    );
    let mut listed = listed?;
    listed.append(later?)?;
    Ok(listed)
}

/// How many lines have ended after the bytes, if so many ended before them.
fn lines_after(before: u32, bytes: &[u8]) -> Result<u32, ReadFault>
    ensures count { IfOk result (λ count. count ≡ before + length (cut_at is_line_feed bytes.now).ended) }
    ensures err { IfErr result (λ fault. fault ≡ ReadFault.Memory) }
{
    let mut count = u64::from(before);
    for byte in bytes {
        if *byte == b'\n' {
            count += 1;
        }
    }
    match u32::try_from(count) {
        Ok(count) => Ok(count),
        Err(_) => Err(ReadFault::Memory),
    }
}
