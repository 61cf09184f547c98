//! Baskets that are gathered one after another.
ghost use Rattle.std.specs.Prelude.{◌≡◌, ◌≤◌, ◌+◌, Bool, [], ◌∷◌, ◌++◌, List, OnOk, IfOk, IfErr, IsTrue, true, false, length, map, min, nat_eq};
ghost use Rattle.std.specs.List.{IsDistinct};
ghost use Rattle.basket_sets.specs.Database.{MOST_WEIGHT, renamed_basket, weighted};
ghost use Rattle.basket_sets.specs.declared.weighted.Weighted.{Weighted};
ghost use Rattle.basket_sets.specs.ItemTable.{HasCounted};
ghost use Rattle.basket_sets.specs.Itemset.{AllBelow, rising};
ghost use Rattle.basket_sets.specs.Support.{all_items, total_of};
ghost use Rattle.basket_read.specs.Fault.{ReturnsBy};
ghost use Rattle.basket_read.specs.Fimi.{basket_of_numbers, if_light};
ghost use Rattle.basket_read.specs.GatheredBaskets.{Gathers, HasGathered};

use crate::fault::ReadFault;
use crate::item_counts::ItemCounts;
use basket_sets::{Database, ItemTable, Itemset};
use std::alloc::{AllocError, Global};

/// The baskets so far. If one can't be added, all are lost. More than a database may have count as
/// out of memory.
#[derive(Debug)]
pub struct GatheredBaskets {
    alloc: Global,
    /// Whether baskets are counted, and dropped then: they are past.
    counting: bool,
    /// The baskets, except those that are past.
    baskets: Database,
    /// The counts of the baskets that are past.
    table: ItemTable,
    /// How many were kept when the table was too small. It is tried again at twice as many.
    refused: usize,
    /// Whether they weigh too much for a database, which then has not all of them.
    heavy: bool,
}

impl Drop for GatheredBaskets {
    fn drop(self) {
        let GatheredBaskets {
            alloc: _,
            counting: _,
            baskets: _,
            table: _,
            refused: _,
            heavy: _,
        } = self;
    }
}

impl GatheredBaskets {
    /// No baskets. Those that will come have about this many items together, if that is known.
    pub fn new(alloc: Global, counting: bool, occurrences: usize) -> Self
        ensures { HasGathered result counting [] }
    {
        GatheredBaskets {
            alloc,
            counting,
            baskets: Database::new(alloc),
            table: ItemTable::expecting(alloc, occurrences),
            refused: 0,
            heavy: false,
        }
    }

    /// What they are allocated with.
    pub(crate) fn alloc(&self) -> Global {
        self.alloc
    }

    /// Whether the next basket may be counted: none can be past after one that is kept.
    pub(crate) fn counts(&self) -> bool
        ensures { IsTrue result → (self.now.counting ≡ true) × (self.now.baskets ≡ []) }
    {
        self.counting && self.baskets.is_empty()
    }

    /// What the baskets weigh together, or `u64::MAX` if it is more.
    fn weight(&self) -> u64
        ensures { result ≡ min (self.now.table.total + total_of self.now.baskets) 18446744073709551615 }
    {
        self.table.total().saturating_add(self.baskets.total())
    }

    /// Adds the basket of the numbers, which may come in any order and repeat, unless there is none.
    #[inline]
    #[tactic(auto, using(crate::proofs::theory::Numbers::rising_nonempty, crate::proofs::theory::Numbers::rising_again))]
    pub fn add(&mut self, numbers: &[u32], weight: u32) -> Result<(), ReadFault>
        requires weighs { 1 ≤ weight }
        ensures baskets { (counting : Bool) (baskets : List Weighted) → HasGathered self.old counting baskets
            → OnOk result (HasGathered self.new counting (baskets ++ basket_of_numbers numbers.now weight)) }
        ensures err { IfErr result (λ fault. fault ≡ ReadFault.Memory) }
    {
        if numbers.is_empty() {
            return Ok(());
        }
        let weight = u64::from(weight);
        if weight > Database::MAX_WEIGHT.saturating_sub(self.weight()) {
            self.heavy = true;
        }
        if self.heavy {
            return Ok(());
        }
        if self.count_basket(numbers, weight) {
            return Ok(());
        }
        let basket = Itemset::from_items(self.alloc, numbers)?;
        if self.count_basket(basket.items(), weight) {
            return Ok(());
        }
        if self.baskets.len() >= Database::MAX_BASKETS
            || self.baskets.push(basket, weight).is_err()
        {
            return Err(ReadFault::Memory);
        }
        self.count()?;
        Ok(())
    }

    /// Counts the basket of the numbers, if baskets are counted, none is kept and the table counts
    /// it. Returns whether it did.
    #[inline]
    fn count_basket(&mut self, numbers: &[u32], weight: u64) -> bool
        requires light { self.old.table.total + total_of self.old.baskets + weight ≤ MOST_WEIGHT }
        requires known { self.old.heavy ≡ false }
        ensures counted { IsTrue result → (counting : Bool) (baskets : List Weighted) → HasGathered self.old counting baskets
            → HasGathered self.new counting (baskets ++ weighted (rising numbers.now) weight ∷ []) }
        ensures left { result ≡ false → self.new ≡ self.old }
    {
        self.counts() && self.table.add_distinct(numbers, weight)
    }

    /// Adds baskets that were gathered after these, and returns whether it did: some that are past
    /// can't come after one that is kept.
    pub(crate) fn append(&mut self, other: GatheredBaskets) -> Result<bool, AllocError>
        ensures baskets { (counting apart : Bool) (baskets more : List Weighted) → HasGathered self.old counting baskets → HasGathered other apart more
            → IfOk result (λ added. IsTrue added → HasGathered self.new counting (baskets ++ more)) }
        ensures left { IfOk result (λ added. added ≡ false → self.new ≡ self.old) }
    {
        if other.counting && !self.counts() {
            return Ok(false);
        }
        self.append_any(other)?;
        Ok(true)
    }

    /// Adds baskets that were gathered after these. If those may be past, these are counted, however
    /// large the table is for them.
    pub fn append_any(&mut self, other: GatheredBaskets) -> Result<(), AllocError>
        ensures { (counting apart : Bool) (baskets more : List Weighted) → (apart ≡ true → counting ≡ true) → HasGathered self.old counting baskets → HasGathered other apart more
            → OnOk result (HasGathered self.new counting (baskets ++ more)) }
    {
        let weight = self.weight().saturating_add(other.weight());
        if self.heavy || other.heavy || weight > Database::MAX_WEIGHT {
            self.heavy = true;
            return Ok(());
        }
        let GatheredBaskets {
            alloc: _,
            counting,
            baskets,
            table,
            refused: _,
            heavy: _,
        } = other;
        if self.baskets.len().saturating_add(baskets.len()) > Database::MAX_BASKETS {
            return Err(AllocError);
        }
        self.count_kept(counting)?;
        self.table.append(&table)?;
        self.baskets.append(baskets)?;
        self.count()?;
        Ok(())
    }

    /// Counts the baskets that are kept, if baskets that are past may come after them.
    fn count_kept(&mut self, past: bool) -> Result<(), AllocError>
        requires { self.old.table.total + total_of self.old.baskets ≤ MOST_WEIGHT }
        ensures same { (self.new.counting ≡ self.old.counting) × (self.new.heavy ≡ self.old.heavy) }
        ensures few { length self.new.baskets ≤ length self.old.baskets }
        ensures none { OnOk result (past ≡ true → self.new.baskets ≡ []) }
        ensures weight { OnOk result (self.new.table.total + total_of self.new.baskets ≡ self.old.table.total + total_of self.old.baskets) }
        ensures baskets { (counting : Bool) (baskets : List Weighted) → (past ≡ true → counting ≡ true) → HasGathered self.old counting baskets → OnOk result (HasGathered self.new counting baskets) }
    {
        if past && !self.baskets.is_empty() {
            self.table.add_all(self.baskets.baskets())?;
            self.baskets.clear();
        }
        Ok(())
    }

    /// Replaces each item by its name. The list has the name of an item at the index of that item.
    pub fn rename(&mut self, names: &[u32]) -> Result<(), AllocError>
        requires { (counting : Bool) × (baskets : List Weighted) × HasGathered self.old counting baskets × AllBelow (length names.now) (all_items baskets) }
        ensures { (counting : Bool) (baskets : List Weighted) → HasGathered self.old counting baskets → IsDistinct nat_eq names.now → AllBelow (length names.now) (all_items baskets)
            → OnOk result (HasGathered self.new counting (map (renamed_basket names.now) baskets)) }
    {
        if self.heavy {
            return Ok(());
        }
        self.table.rename(self.alloc, names)?;
        self.baskets.rename(names);
        Ok(())
    }

    /// Counts the baskets that are kept, if they are to be counted and the table would not be too
    /// large for them.
    fn count(&mut self) -> Result<(), AllocError>
        requires { self.old.table.total + total_of self.old.baskets ≤ MOST_WEIGHT }
        ensures counting { self.new.counting ≡ self.old.counting }
        ensures heavy { self.new.heavy ≡ self.old.heavy }
        ensures baskets { (past : List Weighted) → HasCounted self.old.table past
            → OnOk result ((now : List Weighted) × (self.old.counting ≡ false → now ≡ past) × HasCounted self.new.table now × (now ++ self.new.baskets ≡ past ++ self.old.baskets)) }
    {
        if !self.counting || self.baskets.len() / 2 < self.refused {
            return Ok(());
        }
        if self.table.add(self.baskets.baskets())? {
            self.baskets.clear();
        }
        self.refused = self.baskets.len();
        Ok(())
    }

    /// All baskets, if they don't weigh too much: the counts of those that are past, and the others.
    pub fn finish(self) -> Result<ItemCounts, ReadFault>
        ensures baskets { (counting : Bool) (baskets : List Weighted) → HasGathered self counting baskets → ReturnsBy (Gathers counting) result (if_light baskets) }
        ensures err { IfErr result (λ fault. fault ≡ ReadFault.Heavy) }
    {
        let GatheredBaskets {
            alloc: _,
            counting: _,
            baskets,
            table,
            refused: _,
            heavy,
        } = self;
        if heavy {
            return Err(ReadFault::Heavy);
        }
        Ok(ItemCounts {
            table,
            rest: baskets,
        })
    }
}
