//! From items to ranks.
ghost use Rattle.std.specs.Prelude.{◌≡◌, ◌<◌, List, ℕ, IfOk, length, map, filter, nat_eq};
ghost use Rattle.std.specs.List.{IsDistinct};
ghost use Rattle.basket_ranks.specs.Codes.{MOST_RANKS, rank_of, ranks_of_counts};
ghost use Rattle.basket_sets.specs.Itemset.{IsRising};
ghost use Rattle.basket_sets.specs.Minimum.{meets};
ghost use Rattle.basket_ranks.specs.Ranks.{IsRankTable, entries_of};

use basket_sets::Minimum;
use std::alloc::{AllocError, Global};
use std::cmp::Reverse;
use std::collections::BTreeMap;

/// How many ranks there are at most.
const MAX_RANKS: usize = 4_294_967_295;

/// A table of this many slots is made for any items.
const SMALL_TABLE: usize = 65_536;

/// How many slots a larger table may have for each item.
const SLOTS_PER_ITEM: usize = 16;

/// A frequent item. The items with the greatest counts come first, those of one count by number.
#[derive(PartialEq, Eq, PartialOrd, Ord, Drop)]
struct RankedItem {
    count: Reverse<u64>,
    item: u32,
}

/// The items whose counts meet the minimum, in the order of their ranks.
pub fn ranked_items(
    alloc: Global,
    counts: &[(u32, u64)],
    total: u64,
    minimum: &Minimum,
) -> Result<Vec<u32>, AllocError>
    requires { IsRising (map (λ entry. entry.0) counts.now) }
    ensures ranks { IfOk result (λ items. items.items ≡ ranks_of_counts counts.now total minimum.now) }
    ensures few { IfOk result (λ items. length items.items < MOST_RANKS) }
    ensures distinct { IfOk result (λ items. IsDistinct nat_eq items.items) }
{
    let mut entries = frequent_entries(alloc, counts, total, minimum)?;
    if entries.len() > MAX_RANKS {
        return Err(AllocError);
    }
    entries.sort_unstable();
    items_in_order(alloc, &entries)
}

fn items_in_order(alloc: Global, entries: &[RankedItem]) -> Result<Vec<u32>, AllocError>
    ensures { IfOk result (λ items. items.items ≡ map (λ entry. entry.item) entries.now) }
{
    entries.iter().map(|entry| entry.item).collect(alloc)
}

fn frequent_entries(
    alloc: Global,
    counts: &[(u32, u64)],
    total: u64,
    minimum: &Minimum,
) -> Result<Vec<RankedItem>, AllocError>
    ensures { IfOk result (λ entries. entries_of entries.items ≡ filter (λ entry. meets minimum.now entry.1 total) counts.now) }
{
    let mut entries = Vec::new(alloc);
    for (item, count) in counts {
        if minimum.met(*count, total) {
            entries.push(RankedItem {
                count: Reverse(*count),
                item: *item,
            })?;
        }
    }
    Ok(entries)
}

/// The rank of each frequent item: in a table for small numbers, else in a map.
#[derive(Drop)]
pub struct RankTable {
    /// At each number below its length, the rank of that item.
    slots: Vec<Option<u32>>,
    /// The ranks of the items that have no slot.
    others: BTreeMap<u32, u32>,
}

impl RankTable {
    /// The table of distinct items, each of which has its index as its rank.
    #[tactic(auto, using(std::proofs::lemmas::Grind::common_steps, crate::proofs::RankLemmas::rank_next))]
    pub fn of(alloc: Global, ranked: &[u32]) -> Result<Self, AllocError>
        requires distinct { IsDistinct nat_eq ranked.now }
        requires few { length ranked.now < MOST_RANKS }
        ensures { IfOk result (λ table. IsRankTable ranked.now table) }
    {
        let mut slots = vec![in alloc; None; slots_for(ranked)]?;
        let mut others = BTreeMap::new(alloc);
        for (rank, item) in ranked.iter().enumerate() {
            if (*item as usize) < slots.len() {
                slots[*item as usize] = Some(rank as u32);
            } else {
                others.insert(*item, rank as u32)?;
            }
        }
        Ok(RankTable { slots, others })
    }

    pub fn rank(&self, item: u32) -> Option<u32>
        ensures { (ranked : List ℕ) → IsRankTable ranked self.now → result ≡ rank_of ranked item }
    {
        if (item as usize) < self.slots.len() {
            return self.slots[item as usize];
        }
        self.others.get(&item).copied()
    }
}

/// How many slots a table for the items has.
fn slots_for(ranked: &[u32]) -> usize {
    match ranked.iter().copied().max() {
        Some(greatest) => SMALL_TABLE
            .max(ranked.len().saturating_mul(SLOTS_PER_ITEM))
            .min(greatest as usize + 1),
        None => 0,
    }
}
