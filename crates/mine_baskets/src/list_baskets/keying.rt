//! Baskets whose entries threads make, each those of a part of them.
ghost use Rattle.std.specs.Prelude.{◌<◌, IfOk};
ghost use Rattle.std.specs.Thread.{IsSync};
ghost use Rattle.mine_baskets.specs.Entries.{AreEntries};
ghost use Rattle.mine_baskets.specs.ListBaskets.{AreRankBaskets};

use crate::entries::{KeyedBasket, entries_of};
use crate::list_baskets::grouping::LEAST;
use basket_sets::Weighted;
use std::alloc::{AllocError, Global};
use std::thread::{Threads, join};

/// The entries of baskets of this many ranks. The baskets are halved this many times, and each thread has
/// one of the parts.
#[cycle(keyed)]
pub fn keyed_halves<'a, R: Threads + Sync>(
    rt: &R,
    alloc: Global,
    times: u32,
    count: u32,
    baskets: &'a [Weighted],
) -> Result<Vec<KeyedBasket<'a>>, AllocError>
    requires { AreRankBaskets (record { ranks = count; baskets = baskets.now }) }
    ensures { IfOk result (λ entries. AreEntries count baskets.now entries.items) }
{
    if times == 0 || baskets.len() < LEAST {
        return entries_of(alloc, count, baskets);
    }
    let (front, back) = baskets.split_at(baskets.len() / 2);
    let (first, later) = both_keyed(rt, alloc, times, count, front, back);
    let mut entries = first?;
    entries.append(&mut later?)?;
    Ok(entries)
}

#[cycle(keyed)]
fn both_keyed<'a, R: Threads + Sync>(
    rt: &R,
    alloc: Global,
    times: u32,
    count: u32,
    front: &'a [Weighted],
    back: &'a [Weighted],
) -> (
    Result<Vec<KeyedBasket<'a>>, AllocError>,
    Result<Vec<KeyedBasket<'a>>, AllocError>,
)
    requires some { 0 < times }
    requires front { AreRankBaskets (record { ranks = count; baskets = front.now }) }
    requires back { AreRankBaskets (record { ranks = count; baskets = back.now }) }
    ensures front { IfOk result.0 (λ entries. AreEntries count front.now entries.items) }
    ensures back { IfOk result.1 (λ entries. AreEntries count back.now entries.items) }
{
    join(
        rt,
        || -> Result<Vec<KeyedBasket<'_>>, AllocError>
            requires { IsSync R.row × (0 < times) × AreRankBaskets (record { ranks = count; baskets = front.now }) }
            ensures { IfOk result (λ entries. AreEntries count front.entry.now entries.items) }
        { keyed_halves(rt, alloc, times - 1, count, front) },
        || -> Result<Vec<KeyedBasket<'_>>, AllocError>
            requires { IsSync R.row × (0 < times) × AreRankBaskets (record { ranks = count; baskets = back.now }) }
            ensures { IfOk result (λ entries. AreEntries count back.entry.now entries.items) }
        { keyed_halves(rt, alloc, times - 1, count, back) },
    )
}
