//! Sets that are counted by rows of bits.
ghost use Rattle.std.specs.Prelude.{◌≡◌, ◌<◌, ◌≤◌, ◌+◌, ℕ, IfOk, OnOk, length, slice_index, take};
ghost use Rattle.basket_sets.specs.Database.{MOST_WEIGHT};
ghost use Rattle.basket_sets.specs.Support.{total_of};
ghost use Rattle.mine_supports.specs.Counter.{IsShared};
ghost use Rattle.mine_supports.specs.Extensions.{sets_of};
ghost use Rattle.mine_supports.specs.Counter.{WithSupports};

use crate::block::Block;
use crate::extensions::Extensions;
use crate::tid_words::WORD;
use crate::used_items::UsedItems;
use basket_sets::Weighted;
use std::alloc::{AllocError, Global};
use std::marker::Model;

/// The rows of a block have about this many words, a quarter of a megabyte, so that they stay near the processor.
const BLOCK_WORDS: usize = 32_768;

/// The rows of a block for many sets, each of which costs something for each block, have this many words at most.
const MOST_WORDS: usize = 2_097_152;

/// A block for many sets has a basket for so many of them.
const SETS_A_BASKET: usize = 8;

/// Sets whose supports are counted in blocks of baskets. It is made once, and any number of blocks may be counted at
/// once.
pub struct RowCounter<'a> {
    sets: &'a Extensions,
    used: UsedItems,
    /// Each of the sets has this many items at least.
    least: usize,
}

impl Drop for RowCounter<'_> {
    fn drop(self) {
        let RowCounter {
            sets: _,
            used: _,
            least: _,
        } = self;
    }
}

impl<'a> Model for RowCounter<'a> {
    ghost use Rattle.std.specs.Prelude.{ℕ, List};
    ghost use Rattle.mine_supports.specs.Extensions.{lists_of, prefixes_of, sets_of};
    ghost use Rattle.mine_supports.specs.Needed.{AreAtLeast};
    ghost use Rattle.mine_supports.specs.UsedItems.{AreUsed};

    ghost Value = { List (List ℕ) };

    ghost view = { λ counter. sets_of counter.sets.now };

    ghost invariant = { λ counter. AreUsed (prefixes_of counter.sets.now) counter.used × AreUsed (lists_of counter.sets.now) counter.used
        × AreAtLeast counter.least (sets_of counter.sets.now) };
}

impl<'a> RowCounter<'a> {
    /// The counter of the sets.
    pub fn of(alloc: Global, sets: &'a Extensions) -> Result<Self, AllocError>
        ensures { IfOk result (λ counter. counter ≡ sets_of sets.now) }
    {
        Ok(RowCounter {
            sets,
            used: UsedItems::of(alloc, sets.prefixes(), sets.lists())?,
            least: sets.least_items(),
        })
    }

    /// The number of sets.
    pub fn len(&self) -> usize
        ensures { result ≡ length self.now }
    {
        self.sets.len()
    }

    /// How many baskets have a tid in a block at most.
    fn most_baskets(&self) -> usize
        ensures { 1 ≤ result }
    {
        let used = self.used.items().len().max(1);
        let words = self.sets.len() / SETS_A_BASKET / WORD;
        words.min(MOST_WORDS / used).max(BLOCK_WORDS / used).max(1) * WORD
    }

    /// Whether the sets are so many that a block for them has more baskets than the least one.
    fn has_many_sets(&self) -> bool {
        self.sets.len() / SETS_A_BASKET > BLOCK_WORDS / self.used.items().len().max(1) * WORD
    }

    /// Adds the support of each set in some baskets to its count, block by block.
    #[tactic(auto, using(crate::proofs::CounterLemmas::block_fits))]
    pub fn add(
        &self,
        alloc: Global,
        baskets: &[Weighted],
        counts: &mut [u64],
    ) -> Result<(), AllocError>
        requires long { length counts.old ≡ length self.now }
        requires light { (k : ℕ) → k < length counts.old → slice_index counts.old k + total_of baskets.now ≤ MOST_WEIGHT }
        ensures { OnOk result (WithSupports self.now baskets.now counts.old counts.new) }
    {
        let mut start = 0;
        while start < baskets.len() {
            start += self.add_block(alloc, &baskets[start..], counts)?;
        }
        Ok(())
    }

    /// Adds the support of each set in the first of some baskets to its count. They are as many as fill a block, and their
    /// number is returned. The tids of the prefixes that two sets in a row share are found once.
    fn add_block(
        &self,
        alloc: Global,
        baskets: &[Weighted],
        counts: &mut [u64],
    ) -> Result<usize, AllocError>
        requires some { 1 ≤ length baskets.now }
        requires long { length counts.old ≡ length self.now }
        requires light { (k : ℕ) → k < length counts.old → slice_index counts.old k + total_of baskets.now ≤ MOST_WEIGHT }
        ensures within { IfOk result (λ read. (1 ≤ read) × (read ≤ length baskets.now)) }
        ensures added { IfOk result (λ read. WithSupports self.now (take read baskets.now) counts.old counts.new) }
    {
        if self.sets.is_empty() {
            return Ok(baskets.len());
        }
        let are_many = self.has_many_sets();
        let most = self.most_baskets();
        let block = Block::of(alloc, &self.used, self.least, baskets, most, are_many)?;
        let mut shared = block.prefixes()?;
        let sums_len = if are_many { self.used.table_len() } else { 0 };
        let mut sums = vec![in alloc; 0; sums_len]?;
        let prefixes = self.sets.prefixes();
        let mut start = 0;
        for (number, items) in self.sets.lists().iter().enumerate() {
            let (before, prefix) = (&prefixes[number.saturating_sub(1)], &prefixes[number]);
            shared.truncate(1 + shared_items(before.items(), prefix.items()));
            block.add(
                prefix.items(),
                items.items(),
                &mut shared,
                &mut sums,
                start,
                counts,
            )?;
            start += items.len();
        }
        Ok(block.baskets.len())
    }
}

/// How many first items two sets share.
fn shared_items(before: &[u32], items: &[u32]) -> usize
    ensures { IsShared before.now items.now result }
{
    let most = before.len().min(items.len());
    for index in 0..most {
        if before[index] != items[index] {
            return index;
        }
    }
    most
}
