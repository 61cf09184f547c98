//! Sets that are counted in a block by the tids of their prefixes.
ghost use Rattle.std.specs.Prelude.{◌≡◌, ◌≤◌, ◌<◌, ◌+◌, ◌++◌, ◌∷◌, [], ℕ, List, IfOk, IsTrue, OnOk, length, slice_index};
ghost use Rattle.basket_sets.specs.Database.{MOST_WEIGHT};
ghost use Rattle.basket_sets.specs.Itemset.{contains, has};
ghost use Rattle.basket_sets.specs.Support.{support_of, total_of};
ghost use Rattle.mine_supports.specs.BlockCounts.{numbered};
ghost use Rattle.mine_supports.specs.Counter.{AreAdded};
ghost use Rattle.mine_supports.specs.Extensions.{extend};
ghost use Rattle.mine_supports.specs.Sums.{AreSums};
ghost use Rattle.mine_supports.specs.TidWord.{AreTidsOf};
ghost use Rattle.mine_supports.specs.Prefixes.{ArePrefixes};

use crate::block::Block;
use crate::prefixes::Prefixes;
use crate::sums::add_part;
use crate::tid_words::{TidWord, count_tids, put_kept, shared_weight};
use std::alloc::AllocError;
use std::mem::swap;

/// For so many prefixes of a set the tids are kept at most. The candidates that Apriori makes have fewer, since each
/// of their subsets is frequent.
pub const MOST_PREFIXES: usize = 32;

/// About how many instructions a word of a row takes, and to sum a basket of ten items or so.
const ROW_WORK: usize = 8;

const TID_WORK: usize = 64;

/// For fewer sets than this rows are at least as quick as sums.
const LEAST_SETS: usize = TID_WORK / ROW_WORK;

impl Block<'_> {
    /// Adds the supports of the sets that extend a prefix by one item each to the counts from an index on. They are found
    /// from the tids of some of the prefix's own prefixes; those of more of them are added.
    pub fn add(
        &self,
        prefix: &[u32],
        items: &[u32],
        prefixes: &mut Prefixes,
        sums: &mut [u64],
        start: usize,
        counts: &mut [u64],
    ) -> Result<(), AllocError>
        requires used { IsTrue (contains self.now.used.now prefix.now) }
        requires items_used { IsTrue (contains self.now.used.now items.now) }
        requires prefixes { ArePrefixes (numbered self.now) prefix.now prefixes.old.lists.items }
        requires short { length prefixes.old.lists.items ≤ 1 + length prefix.now }
        requires within { start + length items.now ≤ length counts.old }
        requires light { (k : ℕ) → k < length items.now → slice_index counts.old (start + k) + total_of (numbered self.now) ≤ MOST_WEIGHT }
        ensures supports { OnOk result (AreAdded (extend prefix.now items.now) (numbered self.now) start counts.old counts.new) }
        ensures prefixes { OnOk result (ArePrefixes (numbered self.now) prefix.now prefixes.new.lists.items) }
    {
        self.add_prefixes(prefix, prefixes)?;
        let last = prefixes.last();
        if last.is_empty() {
            return Ok(());
        }
        let depth = prefixes.lists.len() - 1;
        if depth == prefix.len() {
            self.add_supports(last, items, sums, start, counts);
        } else {
            let tids = self.kept_by_all(last, &prefix[depth..])?;
            self.add_supports(&tids, items, sums, start, counts);
        }
        Ok(())
    }

    /// Adds the tids of more prefixes of a set, until there are none or as many as are kept.
    fn add_prefixes(&self, items: &[u32], prefixes: &mut Prefixes) -> Result<(), AllocError>
        requires used { IsTrue (contains self.now.used.now items.now) }
        requires prefixes { ArePrefixes (numbered self.now) items.now prefixes.old.lists.items }
        requires short { length prefixes.old.lists.items ≤ 1 + length items.now }
        ensures prefixes { OnOk result (ArePrefixes (numbered self.now) items.now prefixes.new.lists.items) }
        ensures short { OnOk result (length prefixes.new.lists.items ≤ 1 + length items.now) }
    {
        for depth in prefixes.lists.len() - 1..MOST_PREFIXES.min(items.len()) {
            if prefixes.last().is_empty() {
                return Ok(());
            }
            prefixes.push_kept(self.row(items[depth]))?;
        }
        Ok(())
    }

    /// Those of the tids of a set whose baskets have all of the items.
    fn kept_by_all(&self, tids: &[TidWord], items: &[u32]) -> Result<Vec<TidWord>, AllocError>
        requires used { IsTrue (contains self.now.used.now items.now) }
        ensures { IfOk result (λ kept. (set : List ℕ) → AreTidsOf (numbered self.now) set tids.now
            → AreTidsOf (numbered self.now) (set ++ items.now) kept.items) }
    {
        let mut shared = tids.to_vec(self.alloc)?;
        let mut kept = Vec::new(self.alloc);
        for item in items {
            put_kept(&shared, self.row(*item), &mut kept)?;
            swap(&mut shared, &mut kept);
        }
        Ok(shared)
    }

    /// Adds the supports of the sets that have the items of a set whose tids are given, and one more each, to the counts
    /// from an index on.
    fn add_supports(
        &self,
        tids: &[TidWord],
        items: &[u32],
        sums: &mut [u64],
        start: usize,
        counts: &mut [u64],
    )
        requires used { IsTrue (contains self.now.used.now items.now) }
        requires tids { (set : List ℕ) × AreTidsOf (numbered self.now) set tids.now }
        requires within { start + length items.now ≤ length counts.old }
        requires light { (k : ℕ) → k < length items.now → slice_index counts.old (start + k) + total_of (numbered self.now) ≤ MOST_WEIGHT }
        ensures { (set : List ℕ) → AreTidsOf (numbered self.now) set tids.now → AreAdded (extend set items.now) (numbered self.now) start counts.old counts.new }
    {
        if self.pays_to_sum(tids, items.len(), sums.len()) {
            self.put_sums(tids, sums);
            self.add_sums(tids, items, sums, start, counts);
        } else {
            self.add_weights(tids, items, start, counts);
        }
    }

    /// Whether it is less work to add up the baskets of some tids, item by item, than to find the supports of this many
    /// sets by rows.
    fn pays_to_sum(&self, tids: &[TidWord], sets: usize, sums: usize) -> bool
        ensures { IsTrue result → 1 ≤ length self.now.by_tid.items }
    {
        if self.by_tid.is_empty() || sets < LEAST_SETS {
            return false;
        }
        let rows = tids.len().saturating_mul(sets).saturating_mul(ROW_WORK);
        let work = count_tids(tids)
            .saturating_mul(TID_WORK)
            .saturating_add(sums / 2);
        work <= rows
    }

    /// Adds them by rows.
    fn add_weights(&self, tids: &[TidWord], items: &[u32], start: usize, counts: &mut [u64])
        requires used { IsTrue (contains self.now.used.now items.now) }
        requires tids { (set : List ℕ) × AreTidsOf (numbered self.now) set tids.now }
        requires within { start + length items.now ≤ length counts.old }
        requires light { (k : ℕ) → k < length items.now → slice_index counts.old (start + k) + total_of (numbered self.now) ≤ MOST_WEIGHT }
        ensures { (set : List ℕ) → AreTidsOf (numbered self.now) set tids.now → AreAdded (extend set items.now) (numbered self.now) start counts.old counts.new }
    {
        for (number, item) in items.iter().enumerate() {
            counts[start + number] += self.weight(tids, *item);
        }
    }

    /// Adds them by sums.
    fn add_sums(
        &self,
        tids: &[TidWord],
        items: &[u32],
        sums: &[u64],
        start: usize,
        counts: &mut [u64],
    )
        requires used { IsTrue (contains self.now.used.now items.now) }
        requires tids { (set : List ℕ) × AreTidsOf (numbered self.now) set tids.now }
        requires sums { AreSums (numbered self.now) tids.now sums.now }
        requires within { start + length items.now ≤ length counts.old }
        requires light { (k : ℕ) → k < length items.now → slice_index counts.old (start + k) + total_of (numbered self.now) ≤ MOST_WEIGHT }
        ensures { (set : List ℕ) → AreTidsOf (numbered self.now) set tids.now → AreAdded (extend set items.now) (numbered self.now) start counts.old counts.new }
    {
        for (number, item) in items.iter().enumerate() {
            counts[start + number] += self.sum(tids, *item, sums);
        }
    }

    /// Sums, for each item, what the tids weigh whose baskets have it, as far as there are sums.
    fn put_sums(&self, tids: &[TidWord], sums: &mut [u64])
        requires tids { (set : List ℕ) × AreTidsOf (numbered self.now) set tids.now }
        requires listed { 1 ≤ length self.now.by_tid.items }
        ensures { AreSums (numbered self.now) tids.now sums.new }
    {
        sums.fill(0);
        for part in tids {
            add_part(sums, &self.by_tid, *part);
        }
    }

    /// The support of the set that has the items of a set whose tids are given, and one more.
    #[inline]
    #[tactic(auto, using(crate::proofs::TidLemmas::weighs_light, crate::proofs::TidLemmas::weighs_support))]
    fn weight(&self, tids: &[TidWord], item: u32) -> u64
        requires used { IsTrue (has self.now.used.now item) }
        requires tids { (set : List ℕ) × AreTidsOf (numbered self.now) set tids.now }
        ensures { (set : List ℕ) → AreTidsOf (numbered self.now) set tids.now → result ≡ support_of (numbered self.now) (set ++ item ∷ []) }
    {
        shared_weight(tids, self.row(item))
    }

    /// The same support, by its sum or, without one, by its row.
    #[inline]
    fn sum(&self, tids: &[TidWord], item: u32, sums: &[u64]) -> u64
        requires used { IsTrue (has self.now.used.now item) }
        requires tids { (set : List ℕ) × AreTidsOf (numbered self.now) set tids.now }
        requires sums { AreSums (numbered self.now) tids.now sums.now }
        ensures { (set : List ℕ) → AreTidsOf (numbered self.now) set tids.now → result ≡ support_of (numbered self.now) (set ++ item ∷ []) }
    {
        match sums.get(item as usize) {
            Some(sum) => *sum,
            None => self.weight(tids, item),
        }
    }
}
