//! What a search has found so far.
ghost use Rattle.std.specs.Prelude.{◌≡◌, ◌≤◌, ◌<◌, ◌+◌, ◌++◌, [], ◌∷◌, ℕ, ◌⊎◌, Err, IfOk, IsTrue, false, OnOk, length};
ghost use Rattle.mine_limit.specs.declared.fault.MineFault.TheVariants.{TooMany};
ghost use Rattle.basket_sets.specs.Itemset.{with_item};
ghost use Rattle.basket_lists.specs.CountedSets.{set_at};

use basket_core::{CountedSets, Itemset};
use mine_limit::{MineFault, Tally};
use std::alloc::{AllocError, Global};

/// The sets that were found, and the steps that they took.
#[derive(Drop)]
pub struct Mined<S> {
    pub sets: CountedSets,
    pub steps: S,
}

impl<S: Drop> Mined<S> {
    /// Nothing yet, after some steps. Sets of the items that a list knows are to come.
    pub fn like(alloc: Global, list: &CountedSets, steps: S) -> Result<Self, AllocError>
        ensures sets { IfOk result (λ mined. mined.sets ≡ []) }
        ensures steps { IfOk result (λ mined. mined.steps ≡ steps) }
    {
        Ok(Mined {
            sets: list.empty_like(alloc)?,
            steps,
        })
    }

    /// Reports a frequent set to the tally, and adds it.
    pub fn add<T: Tally>(
        &mut self,
        set: Itemset,
        count: u64,
        tally: &mut T,
    ) -> Result<(), MineFault>
        requires { T.is_over tally.old ≡ false }
        ensures sets { OnOk result (self.new.sets ≡ self.old.sets ++ record { set = set; count = count } ∷ []) }
        ensures steps { self.new.steps ≡ self.old.steps }
        ensures few { OnOk result (length self.new.sets ≤ 4294967295) }
        ensures going_on { OnOk result (T.is_over tally.new ≡ false) }
        ensures told { T.told_of tally.new ≡ T.told_of tally.old + 1 }
        ensures limit { T.limit_of tally.new ≡ T.limit_of tally.old }
        ensures too_many { (limit : ℕ) → result ≡ Err (TooMany limit)
            → (limit ≡ T.limit_of tally.old) × (IsTrue (T.is_over tally.new) ⊎ (limit < length self.old.sets + 1)) }
    {
        let limit = tally.limit();
        if !tally.tell() {
            return Err(MineFault::TooMany { limit });
        }
        self.sets.push(set, count)?;
        if self.sets.len() > limit as usize {
            return Err(MineFault::TooMany { limit });
        }
        Ok(())
    }

    /// Reports a frequent set to the tally, and adds it: the set at an index with one more item.
    /// Returns the index of the new set.
    pub fn add_longer<T: Tally>(
        &mut self,
        alloc: Global,
        index: usize,
        item: u32,
        count: u64,
        tally: &mut T,
    ) -> Result<usize, MineFault>
        requires found { index < length self.old.sets }
        requires going { T.is_over tally.old ≡ false }
        ensures index { IfOk result (λ longer. longer ≡ length self.old.sets) }
        ensures sets { OnOk result (self.new.sets ≡ self.old.sets ++ record { set = with_item item (set_at self.old.sets index); count = count } ∷ []) }
        ensures steps { self.new.steps ≡ self.old.steps }
        ensures few { OnOk result (length self.new.sets ≤ 4294967295) }
        ensures going_on { OnOk result (T.is_over tally.new ≡ false) }
        ensures told { OnOk result (T.told_of tally.new ≡ T.told_of tally.old + 1) }
        ensures at_most { T.told_of tally.new ≤ T.told_of tally.old + 1 }
        ensures limit { T.limit_of tally.new ≡ T.limit_of tally.old }
        ensures too_many { (limit : ℕ) → result ≡ Err (TooMany limit)
            → (limit ≡ T.limit_of tally.old) × (IsTrue (T.is_over tally.new) ⊎ (limit < length self.old.sets + 1)) }
    {
        let limit = tally.limit();
        if !tally.tell() {
            return Err(MineFault::TooMany { limit });
        }
        let longer = self.sets.len();
        self.sets.push_longer(alloc, index, item, count)?;
        if self.sets.len() > limit as usize {
            return Err(MineFault::TooMany { limit });
        }
        Ok(longer)
    }
}
