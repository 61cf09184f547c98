//! Finds the sets of a list without one of their items.
ghost use Rattle.std.specs.Prelude.{◌≤◌, ◌<◌, length};
ghost use Rattle.basket_lists.specs.CountedSets.{set_at};
ghost use Rattle.basket_lists.specs.Without.{AreIndexesWithout};

mod plain;

use crate::counted_sets::CountedSets;
use crate::known::MOST_ITEMS;
use basket_order::{IndexTable, items_hash};
use std::alloc::{AllocError, Global};

impl CountedSets {
    /// Where the list has the set with a number without one of its items: at the index of each item
    /// the index of the set without it, as far as the table knows it.
    pub fn indexes_without(&self, table: &IndexTable, number: usize, found: &mut [u32; MOST_ITEMS])
        requires { number < length self.now }
        ensures { AreIndexesWithout self.now (set_at self.now number) MOST_ITEMS found.new }
    {
        let word = self.words[number];
        match word.plain_index() {
            Some(number) => self.plain_without(table, self.plain.items(number), found),
            None => self.known.indexes_without(&self.words, table, &word, found),
        }
    }

    /// A table of the indexes of the sets from `start` up to `end`.
    pub fn index_table(
        &self,
        alloc: Global,
        start: usize,
        end: usize,
    ) -> Result<IndexTable, AllocError>
        requires { end ≤ length self.now }
    {
        let mut table = IndexTable::with_room(alloc, end.saturating_sub(start))?;
        for index in start..end {
            table.keep(self.hash(index), index);
        }
        Ok(table)
    }

    /// The hash of the set at an index.
    fn hash(&self, index: usize) -> u64
        requires { index < length self.now }
    {
        let word = self.words[index];
        match word.plain_index() {
            Some(index) => items_hash(self.plain.items(index)),
            None => self.known.hash(&word),
        }
    }
}
