//! The rules with one union, before they are made.
ghost use Rattle.std.specs.Prelude.{◌≡◌, ◌≤◌, ◌<◌, IfOk, length};
ghost use Rattle.basket_rules.specs.Listed.{count_at, set_at};
ghost use Rattle.basket_rules.specs.Consequents.{chosen, has_bit};
ghost use Rattle.basket_rules.specs.Rules.{IsCountIn};
ghost use Rattle.basket_rules.specs.declared.consequents.TheConstants.{MOST_BITS};

use crate::set_index::SetIndex;
use crate::supports::{index_of, searched_count};
use basket_core::{Frequent, Share};
use std::alloc::AllocError;

/// The rules with the set at an index of a list as their union, which has these items and this
/// count, and the confidence that they are to meet.
#[derive(Drop)]
pub struct RuleQuery<'a> {
    pub frequent: &'a Frequent,
    pub number: usize,
    pub items: &'a [u32],
    pub count: u64,
    pub confidence: Share,
    ghost listed: { number < length frequent.now.sets },
    ghost is: { items.now ≡ set_at frequent.now.sets number },
    ghost counted: { count ≡ count_at frequent.now.sets number },
    ghost few: { length items.now ≤ MOST_BITS },
}

impl RuleQuery<'_> {
    /// The count of the set with the items of the union at the bits of a word, or 0 if the list
    /// doesn't have it. The items are put together only if it isn't found by its hash.
    pub fn count_of(
        &self,
        bits: u64,
        hash: u64,
        set_index: &mut SetIndex<'_>,
    ) -> Result<u64, AllocError>
        ensures { IfOk result (λ count. IsCountIn self.now.frequent.now.sets (chosen (has_bit bits) (set_at self.now.frequent.now.sets self.now.number)) count) }
    {
        let sets = self.frequent.sets();
        let room = &mut set_index.room;
        if let Some(index) = index_of(sets, self.items, bits, hash, set_index.table, room) {
            return Ok(sets.count(index));
        }
        set_index.sides.fill(self.items, bits)?;
        Ok(searched_count(sets, &set_index.sides.consequent))
    }
}
