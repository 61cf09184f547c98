//! The supports of items while baskets come.
ghost use Rattle.std.specs.Prelude.{◌≡◌, ◌<◌, ◌≤◌, ◌+◌, ◌∷◌, ◌++◌, ◌^◌, [], List, false, IfOk, IsTrue, OnOk, length, map, nat_eq, nat_lt};
ghost use Rattle.std.specs.List.{IsDistinct, list_all};
ghost use Rattle.basket_sets.specs.declared.weighted.Weighted.{Weighted as Basket};
ghost use Rattle.basket_sets.specs.Counts.{AllBelow, item_supports};
ghost use Rattle.basket_sets.specs.Database.{renamed_basket, weighted, MOST_WEIGHT};
ghost use Rattle.basket_sets.specs.ItemTable.{HasCounted};
ghost use Rattle.basket_sets.specs.Itemset.{IsRising, rising};
ghost use Rattle.basket_sets.specs.Support.{all_items, total_of};

use crate::counts::{
    SMALL_TABLE, add_baskets, add_slots, add_to_table, greatest_item, greatest_of, listed,
    occurrences, put_slots,
};
use crate::database::weight_of;
use crate::itemset::{are_distinct, is_rising};
use crate::slot::Slot;
use crate::weighted::Weighted;
use std::alloc::{AllocError, Global};
use std::marker::Model;

/// So few numbers are compared with each other sooner than sorted.
const FEW: usize = 16;

/// The supports of the items of baskets that come one after another. The table has a slot for each
/// number, and grows with the greatest item.
#[derive(Debug, Drop)]
pub struct ItemTable {
    slots: Vec<Slot>,
    /// The weight of these baskets together.
    total: u64,
    /// How many items they have together, or `usize::MAX` if they have more.
    occurrences: usize,
    /// The table may have this many slots, however few items they have.
    least: usize,
}

impl Model for ItemTable {
    ghost use Rattle.basket_sets.specs.ItemTable.{Tabled, IsBounded};

    ghost Value = { Tabled };

    ghost view = { λ t. record { slots = t.slots.items; total = t.total } };

    ghost invariant = { λ t. IsBounded t.slots.items t.total };
}

impl ItemTable {
    /// No baskets have come.
    pub fn new(alloc: Global) -> Self
        ensures { HasCounted result [] }
    {
        ItemTable::expecting(alloc, 0)
    }

    /// No baskets have come, but some that have about this many items together will come.
    pub fn expecting(alloc: Global, occurrences: usize) -> Self
        ensures { HasCounted result [] }
    {
        ItemTable {
            slots: Vec::new(alloc),
            total: 0,
            occurrences: 0,
            least: occurrences.max(SMALL_TABLE),
        }
    }

    /// The weight of the baskets together.
    pub fn total(&self) -> u64
        ensures { result ≡ self.now.total }
    {
        self.total
    }

    /// Counts more baskets, unless their greatest item is far above the number of occurrences, so
    /// that the table would be too large for them. Returns whether they were counted.
    pub fn add(&mut self, baskets: &[Weighted]) -> Result<bool, AllocError>
        requires { self.old.total + total_of baskets.now ≤ MOST_WEIGHT }
        ensures counted { IfOk result (λ counted. IsTrue counted → (before : List Basket) → HasCounted self.old before → HasCounted self.new (before ++ baskets.now)) }
        ensures left { IfOk result (λ counted. counted ≡ false → self.new ≡ self.old) }
    {
        let greatest = greatest_item(baskets) as usize;
        let occurrences = self.occurrences.saturating_add(occurrences(baskets));
        if greatest >= self.least && greatest >= occurrences {
            return Ok(false);
        }
        self.reach(greatest + 1)?;
        self.count(baskets, occurrences);
        Ok(true)
    }

    /// Counts more baskets, however large the table is for them.
    pub fn add_all(&mut self, baskets: &[Weighted]) -> Result<(), AllocError>
        requires { self.old.total + total_of baskets.now ≤ MOST_WEIGHT }
        ensures counted { OnOk result ((before : List Basket) → HasCounted self.old before → HasCounted self.new (before ++ baskets.now)) }
        ensures total { OnOk result (self.new.total ≡ self.old.total + total_of baskets.now) }
    {
        let greatest = greatest_item(baskets) as usize;
        let occurrences = self.occurrences.saturating_add(occurrences(baskets));
        self.reach(greatest + 1)?;
        self.count(baskets, occurrences);
        Ok(())
    }

    /// Counts a basket of these numbers, which may come in any order, if no two are equal and the
    /// table has a slot for each. Numbers that don't rise are not counted if they are more than 16.
    /// Returns whether they were counted.
    #[inline]
    pub fn add_distinct(&mut self, numbers: &[u32], weight: u64) -> bool
        requires { self.old.total + weight ≤ MOST_WEIGHT }
        ensures counted { IsTrue result → (before : List Basket) → HasCounted self.old before → HasCounted self.new (before ++ weighted (rising numbers.now) weight ∷ []) }
        ensures left { result ≡ false → self.new ≡ self.old }
    {
        if !are_distinct_below(numbers, self.slots.len()) {
            return false;
        }
        add_to_table(&mut self.slots, numbers, weight);
        self.total += weight;
        self.occurrences = self.occurrences.saturating_add(numbers.len());
        true
    }

    /// Counts the baskets that another table has counted.
    pub fn append(&mut self, other: &ItemTable) -> Result<(), AllocError>
        requires { self.old.total + other.now.total ≤ MOST_WEIGHT }
        ensures counted { OnOk result ((before more : List Basket) → HasCounted self.old before → HasCounted other.now more → HasCounted self.new (before ++ more)) }
        ensures total { OnOk result (self.new.total ≡ self.old.total + other.now.total) }
    {
        self.reach(other.slots.len())?;
        add_slots(&mut self.slots, &other.slots);
        self.total += other.total;
        self.occurrences = self.occurrences.saturating_add(other.occurrences);
        Ok(())
    }

    /// Replaces each item by its name. The list has the name of an item at the index of that item.
    pub fn rename(&mut self, alloc: Global, names: &[u32]) -> Result<(), AllocError>
        ensures renamed { OnOk result ((baskets : List Basket) → HasCounted self.old baskets → IsDistinct nat_eq names.now → AllBelow (length names.now) (all_items baskets)
            → HasCounted self.new (map (renamed_basket names.now) baskets)) }
        ensures total { OnOk result (self.new.total ≡ self.old.total) }
    {
        let greatest = greatest_of(names) as usize;
        let mut slots = vec![in alloc; Slot::empty(); greatest + 1]?;
        put_slots(&mut slots, &self.slots, names);
        self.slots = slots;
        Ok(())
    }

    /// Makes the table have at least this many slots.
    fn reach(&mut self, slots: usize) -> Result<(), AllocError>
        requires { slots ≤ 2 ^ 32 }
        ensures reaches { OnOk result (slots ≤ length self.new.slots) }
        ensures same { OnOk result ((before : List Basket) → HasCounted self.old before → HasCounted self.new before) }
        ensures total { self.new.total ≡ self.old.total }
    {
        if slots > self.slots.len() {
            self.slots.resize(slots, Slot::empty())?;
        }
        Ok(())
    }

    /// Counts more baskets, with which there are this many occurrences.
    fn count(&mut self, baskets: &[Weighted], occurrences: usize)
        requires within { AllBelow (length self.old.slots) (all_items baskets.now) }
        requires light { self.old.total + total_of baskets.now ≤ MOST_WEIGHT }
        ensures counted { (before : List Basket) → HasCounted self.old before → HasCounted self.new (before ++ baskets.now) }
        ensures total { self.new.total ≡ self.old.total + total_of baskets.now }
    {
        add_baskets(&mut self.slots, baskets);
        self.total += weight_of(baskets);
        self.occurrences = occurrences;
    }

    /// The items in rising order, each with its support.
    pub fn counts(&self, alloc: Global) -> Result<Vec<(u32, u64)>, AllocError>
        ensures counts { IfOk result (λ counts. (baskets : List Basket) → HasCounted self.now baskets → counts.items ≡ item_supports baskets) }
        ensures rising { IfOk result (λ counts. IsRising (map (λ entry. entry.0) counts.items)) }
    {
        listed(alloc, &self.slots)
    }
}

/// Whether there are some numbers, they are below a bound and no two are equal. Those that don't
/// rise are compared with each other, if they are few.
#[inline]
fn are_distinct_below(numbers: &[u32], bound: usize) -> bool
    ensures distinct { IsTrue result → IsDistinct nat_eq numbers.now }
    ensures below { IsTrue result → AllBelow bound numbers.now }
{
    let Some(last) = numbers.last() else {
        return false;
    };
    if is_rising(numbers) {
        return (*last as usize) < bound;
    }
    if numbers.len() > FEW || !are_below(numbers, bound) {
        return false;
    }
    are_distinct(numbers)
}

/// Whether each number is below a bound.
fn are_below(numbers: &[u32], bound: usize) -> bool
    ensures { result ≡ list_all (λ number. nat_lt number bound) numbers.now }
{
    numbers.iter().all(|number| (*number as usize) < bound)
}
