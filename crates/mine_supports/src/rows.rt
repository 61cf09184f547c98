//! Rows of bits of a block of baskets.
ghost use Rattle.std.specs.Prelude.{◌≡◌, ◌≤◌, ◌<◌, ◌+◌, ◌*◌, ◌++◌, ◌∷◌, ◌==◌, ◌&&◌, ◌||◌, [], ℕ, All, List, IfOk, OnOk, length, slice_index};
ghost use Rattle.basket_sets.specs.Itemset.{IsRising, has};
ghost use Rattle.basket_sets.specs.declared.weighted.Weighted.{Weighted as Basket};
ghost use Rattle.mine_supports.specs.TidWord.{IsRowOf};
ghost use Rattle.mine_supports.specs.Rows.{AreRows, bit_in};
ghost use Rattle.mine_supports.specs.UsedItems.{AreNumbers};

use crate::tid_words::WORD;
use crate::used_items::UsedItems;
use std::alloc::{AllocError, Global};

/// For each item that is used a row with a bit for each basket of a block, which is one if the basket has the item.
#[derive(Drop)]
pub struct Rows {
    /// How many words a row has.
    words: usize,
    /// The words of all rows, one row after the other.
    bits: Vec<u64>,
}

impl Rows {
    /// Rows that have a bit for this many baskets at least, of which there are none yet.
    pub fn with_room(alloc: Global, used: &UsedItems, baskets: usize) -> Result<Self, AllocError>
        ensures rows { IfOk result (AreRows used.now []) }
        ensures room { IfOk result (λ rows. baskets ≤ rows.words * 64) }
        ensures rising { OnOk result (IsRising used.now) }
    {
        let words = baskets.div_ceil(WORD);
        let Some(len) = used.items().len().checked_mul(words) else {
            return Err(AllocError);
        };
        let bits = vec![in alloc; 0; len]?;
        Ok(Rows { words, bits })
    }

    /// Adds a basket, whose tid is the number of those before it, by the numbers of its used items.
    pub fn push(&mut self, tid: usize, numbers: &[usize])
        requires rows { (used : List ℕ) × (before : List Basket) × AreRows used before self.old × All (λ number. number < length used) numbers.now }
        requires room { tid < self.old.words * 64 }
        ensures rows { (used : List ℕ) (before : List Basket) (basket : Basket) → IsRising used → tid ≡ length before → AreRows used before self.old
            → AreNumbers used basket.basket numbers.now → AreRows used (before ++ basket ∷ []) self.new }
        ensures room { self.new.words ≡ self.old.words }
    {
        mark(&mut self.bits, self.words, tid, numbers);
    }

    /// The row of an item by its number.
    #[inline]
    #[tactic(auto, using(crate::proofs::RowLemmas::row_is))]
    pub fn row(&self, number: usize) -> &[u64]
        requires { (items : List ℕ) × (baskets : List Basket) × (number < length items) × AreRows items baskets self.now }
        ensures { (items : List ℕ) (baskets : List Basket) → number < length items → AreRows items baskets self.now → IsRowOf baskets (slice_index items number) result.now }
    {
        let start = number * self.words;
        &self.bits[start..start + self.words]
    }
}

/// Sets the bit of a tid in the rows of some numbers.
fn mark(bits: &mut [u64], words: usize, tid: usize, numbers: &[usize])
    requires long { All (λ number. number * words + words ≤ length bits.old) numbers.now }
    requires within { tid < words * 64 }
    ensures { (number other : ℕ) → other < words * 64
        → bit_in bits.new words number other ≡ (bit_in bits.old words number other || (other == tid) && has numbers.now number) }
{
    for number in numbers {
        bits[*number * words + tid / WORD] |= 1 << (tid % WORD);
    }
}
