//! The first phase, which counts the items.
ghost use Rattle.std.specs.Prelude.{◌≡◌, ◌≤◌, List, IfOk, map};
ghost use Rattle.basket_ranks.specs.Shards.{shard_of};
ghost use Rattle.basket_sets.specs.declared.weighted.Weighted.{Weighted as Basket};
ghost use Rattle.basket_sets.specs.Counts.{item_supports};
ghost use Rattle.basket_sets.specs.Database.{MOST_WEIGHT};
ghost use Rattle.basket_sets.specs.Support.{total_of};
ghost use Rattle.mine_pieces.specs.Counting.{CountParts};

use crate::cutting::Cutting;
use crate::gate::Gate;
use crate::phase::Phase;
use crate::pieces::{PartWork, by_pieces};
use basket_ranks::{add_counts, shard};
use basket_sets::{Weighted, count_items};
use std::alloc::{AllocError, Global};
use std::thread::Threads;

/// The number of the phase.
const PHASE: u32 = 1;

/// Items, rising, each with its support.
type Counts = Vec<(u32, u64)>;

/// Each part has a list of counts, and may have a table of half a megabyte while it is counted.
const MOST_PARTS: u32 = 128;

/// Baskets whose items are counted, in this many parts.
#[derive(Drop)]
struct ItemCounting<'a> {
    baskets: &'a [Weighted],
    parts: u32,
    ghost light: { total_of baskets.now ≤ MOST_WEIGHT },
}

impl PartWork<Counts> for ItemCounting<'_> {
    type Tools = ();

    ghost part_count = { λ work. work.parts };

    ghost are_tools = { λ work tools. Unit {0} };

    ghost is_value = { λ work part counts. counts.items ≡ item_supports (shard_of part work.parts work.baskets.now) };

    fn parts(&self) -> u32 {
        self.parts
    }

    fn tools(&self, _alloc: Global) -> Result<(), AllocError> {
        Ok(())
    }

    #[tactic(auto, using(std::proofs::lemmas::Grind::common_steps, crate::proofs::theory::Parts::shard_is_light, crate::proofs::theory::Parts::part_is))]
    fn value(&self, alloc: Global, _tools: &mut (), part: u32) -> Result<Counts, AllocError> {
        let (start, end) = shard(part, self.parts, self.baskets.len());
        count_items(alloc, &self.baskets[start..end])
    }
}

/// Counts of parts added, neighbours first, so that no list is long before it must be.
fn add_up(alloc: Global, lists: &[Counts]) -> Result<Counts, AllocError>
    requires { (baskets : List Basket) × CountParts baskets (map (λ list. list.items) lists.now) × (total_of baskets ≤ MOST_WEIGHT) }
    ensures { (baskets : List Basket) → CountParts baskets (map (λ list. list.items) lists.now) → IfOk result (λ counts. counts.items ≡ item_supports baskets) }
{
    match lists {
        [] => Ok(Vec::new(alloc)),
        [counts] => {
            let mut copy = Vec::with_capacity(alloc, counts.len())?;
            copy.extend_from_slice(counts)?;
            Ok(copy)
        }
        _ => {
            let (front, back) = lists.split_at(lists.len() / 2);
            add_counts(alloc, &add_up(alloc, front)?, &add_up(alloc, back)?)
        }
    }
}

/// In how many parts the items are counted. One worker needs no lists to be added up.
fn parts_for(cutting: Cutting) -> u32
    ensures { 1 ≤ result }
{
    match cutting.workers {
        1 => 1,
        _ => cutting.pieces.min(MOST_PARTS),
    }
}

/// The items of the baskets in rising order, each with its support, counted by a number of workers
/// over parts of the baskets, of which each piece has some. The only error is out of memory.
pub fn count_shared<R: Threads + Sync, G: Gate + Sync>(
    rt: &R,
    alloc: Global,
    baskets: &[Weighted],
    cutting: Cutting,
    gate: &G,
) -> Result<Vec<(u32, u64)>, AllocError>
    requires light { total_of baskets.now ≤ MOST_WEIGHT }
    ensures counts { IfOk result (λ counts. counts.items ≡ item_supports baskets.now) }
{
    let parts = parts_for(cutting);
    let counting = ItemCounting { baskets, parts };
    let lists = by_pieces(rt, alloc, &counting, &Phase::new(PHASE, cutting, gate))?;
    add_up(alloc, &lists)
}
