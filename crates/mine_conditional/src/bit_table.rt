//! A table of the bits of ranks, by which baskets become words.
ghost use Rattle.std.specs.Prelude.{◌≡◌, ◌≤◌, ◌<◌, ℕ, All, IfOk, length, map, replicate};
ghost use Rattle.std.specs.List.{sum_by};
ghost use Rattle.basket_sets.specs.Counts.{AllBelow};
ghost use Rattle.basket_sets.specs.Database.{MOST_WEIGHT};
ghost use Rattle.basket_sets.specs.Itemset.{IsRising};
ghost use Rattle.mine_baskets.specs.declared.words.Word.{Word as Bits};
ghost use Rattle.mine_baskets.specs.Baskets.{baskets_in};
ghost use Rattle.mine_baskets.specs.ListBaskets.{HaveSameWeights};
ghost use Rattle.mine_baskets.specs.Words.{word_baskets};
ghost use Rattle.mine_conditional.specs.BitTable.{AreBits, table_bits, table_word};

use mine_baskets::words::{WORD_RANKS, Word, add, bit_of};
use mine_baskets::{BASKETS_AHEAD, Baskets};
use std::alloc::{AllocError, Global};

/// A list of at most this many ranks is in the nearest cache, so nothing is read ahead.
pub const NEAR_RANKS: usize = 16_384;

/// Sets the bit of each rank's index in the list.
pub fn set_bits(of: &mut [u64], kept: &[u32])
    requires none { of.old ≡ replicate (length of.old) 0 }
    requires rises { IsRising kept.now }
    requires few { length kept.now ≤ WORD_RANKS }
    requires below { AllBelow (length of.old) kept.now }
    ensures { AreBits kept.now of.new }
{
    for (at, rank) in kept.iter().enumerate() {
        of[*rank as usize] = bit_of(at);
    }
}

/// The bits that a table has for the ranks of a basket.
fn bits_of(of: &[u64], basket: &[u32]) -> u64
    requires { AllBelow (length of.now) basket.now }
    ensures { result ≡ table_bits of.now basket.now }
{
    let mut bits = 0;
    for rank in basket {
        bits |= of[*rank as usize];
    }
    bits
}

/// The baskets as the bits that a table has for their ranks, equal neighbours merged.
pub fn words_of(alloc: Global, of: &[u64], baskets: Baskets<'_>) -> Result<Vec<Word>, AllocError>
    requires { baskets.count ≤ length of.now }
    ensures some { IfOk result (λ words. All (λ (word : Bits). 1 ≤ word.weight) words.items) }
    ensures light { IfOk result (λ words. sum_by (λ (word : Bits). word.weight) words.items ≤ MOST_WEIGHT) }
    ensures weights { IfOk result (λ words. (count : ℕ) → HaveSameWeights (word_baskets count (map (table_word of.now) (baskets_in baskets.entry))) (word_baskets count words.items)) }
{
    let mut words = Vec::with_capacity(alloc, baskets.len())?;
    let mut end_ranks = [0u32; BASKETS_AHEAD];
    let is_far = baskets.ranks.len() > NEAR_RANKS;
    for index in 0..baskets.len() {
        if is_far && index % BASKETS_AHEAD == 0 {
            end_ranks = baskets.read_ahead(index);
        }
        // What was read has bits in the table: it never asks for room.
        words.reserve(usize::from(end_ranks[index % BASKETS_AHEAD] as usize >= of.len()))?;
        let (basket, weight) = baskets.at(index);
        let bits = bits_of(of, basket);
        add(&mut words, Word { bits, weight })?;
    }
    Ok(words)
}
