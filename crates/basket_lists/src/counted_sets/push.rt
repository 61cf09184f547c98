//! Adds sets to a list.
ghost use Rattle.std.specs.Prelude.{◌≡◌, ◌<◌, ◌++◌, [], ◌∷◌, All, IfOk, List, OnOk, length, map, slice_index_or};
ghost use Rattle.basket_lists.specs.CountedSets.{set_at};
ghost use Rattle.basket_lists.specs.Packed.{Coding, IsKept, kept};
ghost use Rattle.basket_sets.specs.declared.counted.Counted.{Counted as Set};
ghost use Rattle.basket_sets.specs.Itemset.{AllBelow, IsRising, rising, with_item};

use crate::counted_sets::CountedSets;
use crate::packed::Packed;
use crate::plain::PlainSets;
use basket_sets::Itemset;
use std::alloc::{AllocError, Global};

impl CountedSets {
    /// Adds a set with its count.
    pub fn push(&mut self, set: Itemset, count: u64) -> Result<(), AllocError>
        ensures { OnOk result (self.new ≡ self.old ++ record { set = set; count = count } ∷ []) }
    {
        self.push_set(&set, count)
    }

    fn push_set(&mut self, set: &Itemset, count: u64) -> Result<(), AllocError>
        ensures { OnOk result (self.new ≡ self.old ++ record { set = set.now; count = count } ∷ []) }
    {
        match self.known.pack(set, count) {
            Some(packed) => push_word(&mut self.words, packed),
            None => self.push_plain(set.items(), count),
        }
    }

    /// Adds a set with its count, whose items are put into the list of their own.
    pub(crate) fn push_plain(&mut self, set: &[u32], count: u64) -> Result<(), AllocError>
        requires { IsRising set.now }
        ensures { OnOk result (self.new ≡ self.old ++ record { set = set.now; count = count } ∷ []) }
    {
        push_elsewhere(&mut self.words, &mut self.plain, set, count)
    }

    /// Adds the set of the names of some numbers with its count. The list has the name of a number
    /// at the index of that number.
    pub fn push_renamed(
        &mut self,
        alloc: Global,
        numbers: &Itemset,
        names: &[u32],
        count: u64,
    ) -> Result<(), AllocError>
        requires { AllBelow (length names.now) numbers.now }
        ensures { OnOk result (self.new
            ≡ self.old ++ record { set = rising (map (λ number. slice_index_or names.now number 0) numbers.now); count = count } ∷ []) }
    {
        match self.known.pack_renamed(numbers, names, count) {
            Some(packed) => push_word(&mut self.words, packed),
            None => self.push_plain(numbers.copied(alloc)?.renamed(names).items(), count),
        }
    }

    /// Adds the set at an index with one more item, and a count of its own.
    pub fn push_longer(
        &mut self,
        alloc: Global,
        index: usize,
        item: u32,
        count: u64,
    ) -> Result<(), AllocError>
        requires { index < length self.old }
        ensures { OnOk result (self.new ≡ self.old ++ record { set = with_item item (set_at self.old index); count = count } ∷ []) }
    {
        let word = self.words[index];
        if word.is_here() {
            if let Some(longer) = self.known.longer(&word, item, count) {
                return push_word(&mut self.words, longer);
            }
        }
        let set = self.set_with(alloc, index, item)?;
        self.push_plain(set.items(), count)
    }

    /// The set at an index with one more item.
    fn set_with(&self, alloc: Global, index: usize, item: u32) -> Result<Itemset, AllocError>
        requires { index < length self.now }
        ensures { IfOk result (λ set. set ≡ with_item item (set_at self.now index)) }
    {
        self.set(alloc, index)?.with(alloc, item)
    }
}

/// Adds a word.
pub fn push_word(words: &mut Vec<Packed>, word: Packed) -> Result<(), AllocError>
    ensures kept { (coding : Coding) (plain : List Set) → All (IsKept coding plain) words.old.items → IsKept coding plain word → All (IsKept coding plain) words.new.items }
    ensures pushed { OnOk result (words.new.items ≡ words.old.items ++ word ∷ []) }
{
    Ok(words.push(word)?)
}

/// Adds a set to the other list, and the word that stands for it.
pub fn push_elsewhere(
    words: &mut Vec<Packed>,
    plain: &mut PlainSets,
    set: &[u32],
    count: u64,
) -> Result<(), AllocError>
    requires { IsRising set.now }
    ensures kept { (coding : Coding) → All (IsKept coding plain.old) words.old.items → All (IsKept coding plain.new) words.new.items }
    ensures sets { (coding : Coding) → All (IsKept coding plain.old) words.old.items
        → OnOk result (map (kept coding plain.new) words.new.items ≡ map (kept coding plain.old) words.old.items ++ record { set = set.now; count = count } ∷ []) }
{
    let word = Packed::elsewhere(plain.len());
    plain.push(set, count)?;
    push_word(words, word)
}
