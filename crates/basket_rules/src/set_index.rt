//! What rules are looked up by.
ghost use Rattle.std.specs.Prelude.{◌≡◌, ◌<◌, IfOk, length};
ghost use Rattle.basket_sets.specs.Itemset.{IsRising};
ghost use Rattle.basket_rules.specs.Confident.{rule_from, rule_in};

use crate::confident::ConfidentRule;
use crate::consequents::Sides;
use crate::hashes::ItemHashes;
use crate::listed::items_at;
use crate::rule_counts::RuleCounts;
use basket_core::{CountedSets, Frequent, MOST_ITEMS};
use basket_order::{IndexTable, items_hash};
use std::alloc::{AllocError, Global};

/// What a thread keeps from union to union while it makes the rules of a list: a table of the indexes of
/// its sets, which threads share, and room that is used again. No rule depends on it.
pub struct SetIndex<'a> {
    pub(crate) table: &'a IndexTable,
    /// The items of the set that was looked at last, if it is kept as a word.
    pub(crate) room: [u32; MOST_ITEMS],
    /// The hashes of the items of the last union.
    pub(crate) hashes: ItemHashes,
    /// The items of the sides of the last rule.
    pub sides: Sides,
}

impl Drop for SetIndex<'_> {
    fn drop(self) {
        let SetIndex {
            table: _,
            room: _,
            hashes: _,
            sides: _,
        } = self;
    }
}

/// The indexes of the sets of a list by their hashes.
pub fn index_table_of(alloc: Global, sets: &CountedSets) -> Result<IndexTable, AllocError> {
    let mut table = IndexTable::with_room(alloc, sets.len())?;
    let mut room = [0; MOST_ITEMS];
    for index in 0..sets.len() {
        table.keep(items_hash(items_at(sets, index, &mut room)), index);
    }
    Ok(table)
}

impl<'a> SetIndex<'a> {
    /// Nothing is allocated.
    pub fn new(alloc: Global, table: &'a IndexTable) -> Self {
        SetIndex {
            table,
            room: [0; MOST_ITEMS],
            hashes: ItemHashes::none(alloc),
            sides: Sides::new(alloc),
        }
    }

    /// Puts the items of both sides of a rule of the set at the index into `sides`, and returns its
    /// counts.
    pub fn rule(
        &mut self,
        frequent: &Frequent,
        number: usize,
        met: &ConfidentRule,
    ) -> Result<RuleCounts, AllocError>
        requires { number < length frequent.now.sets }
        ensures rule { IfOk result (λ counts. rule_from self.new.sides counts ≡ rule_in frequent.now number met.now) }
        ensures antecedent { IfOk result (λ _. IsRising self.new.sides.antecedent.items) }
        ensures consequent { IfOk result (λ _. IsRising self.new.sides.consequent.items) }
    {
        let sets = frequent.sets();
        let items = items_at(sets, number, &mut self.room);
        self.sides.fill(items, met.consequent.bits)?;
        Ok(RuleCounts {
            count: sets.count(number),
            total: frequent.total(),
            antecedent_count: met.antecedent_count,
            consequent_count: met.consequent_count,
        })
    }
}
