//! Baskets of up to 64 ranks, each as the bits of a word.
ghost use Rattle.std.specs.Prelude.{◌≡◌, ◌≢◌, ◌≤◌, ◌<◌, ◌+◌, ◌-◌, ◌^◌, ◌++◌, [], ◌∷◌, ℕ, All, IfOk, IsTrue, OnOk, false, length, slice_index_or, sum_by};
ghost use Rattle.std.specs.List.Sorted.{IsNonDecreasingBy};
ghost use Rattle.basket_sets.specs.Database.{MOST_WEIGHT};
ghost use Rattle.mine_baskets.specs.declared.words.Word.{Word as Bits};
ghost use Rattle.mine_baskets.specs.ListBaskets.{HaveSameWeights};
ghost use Rattle.mine_baskets.specs.Words.{AreInOrder, EndsBy, has_rank, ranks_in, word_baskets};

use std::alloc::{AllocError, Global};

/// How many ranks a word has bits for.
pub const WORD_RANKS: usize = 64;

/// A basket of up to 64 ranks: the bits of its ranks, rank 0 the highest, so that in the order of
/// the words baskets with a common prefix are neighbours.
#[derive(Clone, Copy, PartialEq, Eq, PartialOrd, Ord)]
pub struct Word {
    pub bits: u64,
    pub weight: u64,
}

impl Word {
    /// Whether it has a rank.
    pub fn has(&self, rank: u32) -> bool
        requires { rank < WORD_RANKS }
        ensures { result ≡ has_rank self.now.bits rank }
    {
        (self.bits >> (63 - rank)) % 2 == 1
    }

    /// Adds the weight of an equal word.
    pub(crate) fn add_weight(&mut self, weight: u64)
        requires { self.old.weight + weight ≤ MOST_WEIGHT }
        ensures { self.new ≡ record { bits = self.old.bits; weight = self.old.weight + weight } }
    {
        self.weight += weight;
    }

    /// Adds its ranks, all below a number, to a list.
    #[tactic(auto, using(std::proofs::lemmas::Grind::common_steps, crate::proofs::BitRankLemmas::no_first_rank))]
    pub fn add_ranks(&self, ranks: &mut Vec<u32>, count: u32) -> Result<(), AllocError>
        requires { count ≤ WORD_RANKS }
        ensures { OnOk result (ranks.new.items ≡ ranks.old.items ++ ranks_in count self.now.bits) }
    {
        let mut rest = self.bits;
        while rest != 0 {
            let bit = rest.ilog2();
            let rank = 63 - bit;
            if rank >= count {
                return Ok(());
            }
            ranks.push(rank)?;
            rest -= 1 << bit;
        }
        Ok(())
    }
}

/// How many bits the words have together, which is how much room a list of their ranks needs.
pub fn ones_of(words: &[Word]) -> usize {
    let mut ones = 0usize;
    for word in words {
        ones = ones.saturating_add(word.bits.count_ones() as usize);
    }
    ones
}

/// The bit of a rank.
pub fn bit_of(rank: usize) -> u64
    requires { rank < WORD_RANKS }
    ensures { result ≡ 2 ^ (63 - rank) }
{
    1 << (63 - rank)
}

/// Whether the last word has these bits.
fn repeats(words: &[Word], bits: u64) -> bool
    ensures same { IsTrue result → (0 < length words.now) × ((d : Bits) → (slice_index_or words.now (length words.now - 1) d).bits ≡ bits) }
    ensures other { result ≡ false → (d : Bits) → 0 < length words.now → (slice_index_or words.now (length words.now - 1) d).bits ≢ bits }
{
    match words.last() {
        Some(last) => last.bits == bits,
        None => false,
    }
}

/// Adds a word at the end, or its weight to the last one if that is equal.
#[tactic(auto, using(std::proofs::lemmas::Grind::common_steps, std::proofs::lemmas::List::get_or_default, crate::proofs::WordLemmas::heavier_word, crate::proofs::WordLemmas::heavier_order, crate::proofs::WordLemmas::pushed_end))]
pub fn add(words: &mut Vec<Word>, word: Word) -> Result<(), AllocError>
    requires some { All (λ (other : Bits). 1 ≤ other.weight) words.old.items × (1 ≤ word.weight) }
    requires light { sum_by (λ (other : Bits). other.weight) words.old.items + word.weight ≤ MOST_WEIGHT }
    ensures some { OnOk result (All (λ (other : Bits). 1 ≤ other.weight) words.new.items) }
    ensures light { OnOk result (sum_by (λ (other : Bits). other.weight) words.new.items ≡ sum_by (λ (other : Bits). other.weight) words.old.items + word.weight) }
    ensures weights { OnOk result ((count : ℕ) → HaveSameWeights (word_baskets count (words.old.items ++ word ∷ [])) (word_baskets count words.new.items)) }
    ensures order { OnOk result (AreInOrder words.old.items → EndsBy word.bits words.old.items → AreInOrder words.new.items) }
    ensures end { OnOk result (EndsBy word.bits words.new.items) }
{
    if repeats(words, word.bits) {
        let last = words.len() - 1;
        words[last].add_weight(word.weight);
        return Ok(());
    }
    words.push(word)?;
    Ok(())
}

/// The words, which are sorted, with equal ones merged.
pub fn merged(alloc: Global, words: &[Word]) -> Result<Vec<Word>, AllocError>
    requires some { All (λ (word : Bits). 1 ≤ word.weight) words.now }
    requires light { sum_by (λ (word : Bits). word.weight) words.now ≤ MOST_WEIGHT }
    requires sorted { IsNonDecreasingBy (λ (word : Bits). word.bits) words.now }
    ensures order { IfOk result (λ merged. AreInOrder merged.items) }
    ensures some { IfOk result (λ merged. All (λ (word : Bits). 1 ≤ word.weight) merged.items) }
    ensures light { IfOk result (λ merged. sum_by (λ (word : Bits). word.weight) merged.items ≡ sum_by (λ (word : Bits). word.weight) words.now) }
    ensures weights { IfOk result (λ merged. (count : ℕ) → HaveSameWeights (word_baskets count words.now) (word_baskets count merged.items)) }
{
    let mut merged = Vec::with_capacity(alloc, words.len())?;
    for word in words {
        add(&mut merged, *word)?;
    }
    Ok(merged)
}
