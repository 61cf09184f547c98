//! Finds sets that are no words without one of their items.
ghost use Rattle.std.specs.Prelude.{◌<◌, IsTrue, length, slice_index_or};
ghost use Rattle.basket_lists.specs.Without.{AreIndexesWithout, IsLongerBy, IsIndexWithout};
ghost use Rattle.basket_sets.specs.Itemset.{IsRising};

use crate::counted_sets::CountedSets;
use crate::known::MOST_ITEMS;
use basket_order::{IndexTable, MOST_STEPS, NOWHERE, item_hash, items_hash};

impl CountedSets {
    /// Where the list has a set without one of its items among the sets that are no words, as far as
    /// the table knows it.
    pub(crate) fn plain_without(
        &self,
        table: &IndexTable,
        items: &[u32],
        found: &mut [u32; MOST_ITEMS],
    )
        requires { IsRising items.now }
        ensures { AreIndexesWithout self.now items.now MOST_ITEMS found.new }
    {
        let hash = items_hash(items);
        first_indexes(table, items, hash, found);
        for index in 0..items.len().min(MOST_ITEMS) {
            let first = found[index];
            if !self.is_without_at(first, items, index) {
                let shorter = hash.wrapping_sub(item_hash(items[index]));
                found[index] = self.find_without(table, items, index, shorter);
            }
        }
    }

    /// Whether the set with a number is no word, and another without the item at an index.
    fn is_without_at(&self, number: u32, items: &[u32], index: usize) -> bool
        requires index { index < length items.now }
        requires rises { IsRising items.now }
        ensures { IsTrue result → IsIndexWithout self.now items.now (slice_index_or items.now index 0) number }
    {
        let number = number as usize;
        if number >= self.len() {
            return false;
        }
        match self.words[number].plain_index() {
            Some(number) => is_without(self.plain.items(number), items, index),
            None => false,
        }
    }

    /// The index of the set with this hash that is another without one of its items, if the table
    /// knows it.
    #[inline(never)]
    fn find_without(&self, table: &IndexTable, items: &[u32], index: usize, hash: u64) -> u32
        requires index { index < length items.now }
        requires rises { IsRising items.now }
        ensures { IsIndexWithout self.now items.now (slice_index_or items.now index 0) result }
    {
        for step in 0..MOST_STEPS {
            let at = table.at(hash, step);
            if at == NOWHERE {
                return NOWHERE;
            }
            if self.is_without_at(at, items, index) {
                return at;
            }
        }
        NOWHERE
    }
}

/// The first index that is kept for a set without each of its items. All are read before a set is looked
/// at, so that none waits for another.
fn first_indexes(table: &IndexTable, items: &[u32], hash: u64, found: &mut [u32; MOST_ITEMS]) {
    for index in 0..items.len().min(MOST_ITEMS) {
        found[index] = table.at(hash.wrapping_sub(item_hash(items[index])), 0);
    }
}

/// Whether a set is another without the item at an index.
fn is_without(set: &[u32], items: &[u32], index: usize) -> bool
    requires index { index < length items.now }
    requires rises { IsRising items.now }
    ensures { IsTrue result → IsLongerBy (slice_index_or items.now index 0) set.now items.now }
{
    if items.len() != set.len() + 1 {
        return false;
    }
    &items[..index] == &set[..index] && &items[index + 1..] == &set[index..]
}
