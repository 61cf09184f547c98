//! Baskets of up to 64 ranks, each as the bits of a word: their pairs, and those of a rank.
ghost use Rattle.std.specs.Prelude.{◌≡◌, ◌≤◌, ◌<◌, ◌+◌, ℕ, All, IfOk, IsTrue, length, map, slice_index, sum_by};
ghost use Rattle.std.specs.List.{flat_map, list_all, range_with_len};
ghost use Rattle.basket_ranks.specs.Codes.{decoded_basket};
ghost use Rattle.basket_sets.specs.Counts.{AllBelow};
ghost use Rattle.basket_sets.specs.Database.{MOST_WEIGHT};
ghost use Rattle.basket_sets.specs.Itemset.{IsRising, contains, has};
ghost use Rattle.mine_baskets.specs.declared.words.TheConstants.{WORD_RANKS};
ghost use Rattle.mine_baskets.specs.declared.words.Word.{Word as Bits};
ghost use Rattle.mine_classes.specs.Conditional.{kept_basket};
ghost use Rattle.mine_baskets.specs.ListBaskets.{AreRankBaskets, HaveSameWeights};
ghost use Rattle.mine_pairs.specs.Pairs.{pairs_of};
ghost use Rattle.mine_baskets.specs.Words.{AreInOrder, ranks_in, word_baskets};
ghost use Rattle.mine_conditional.specs.WordPaths.{pair_weight, rank_weight};
ghost use Rattle.mine_conditional.specs.Paths.{is_branch};

use crate::shift::{shift_all, shifts_of};
use mine_baskets::WordBaskets;
use mine_baskets::words::{self, WORD_RANKS, Word};
use mine_pairs::met_in_order;
use std::alloc::{AllocError, Global};

/// Whether the prefix tree of the baskets is a single branch.
pub fn is_single_branch(baskets: &WordBaskets) -> bool
    ensures { result ≡ is_branch baskets.now.baskets }
{
    are_fronts(baskets.words(), baskets.ranks())
}

/// The ranks below the rank that are frequent together with it, by a least support, each with the
/// support of the pair.
pub fn pairs(
    alloc: Global,
    baskets: &WordBaskets,
    rank: u32,
    least: u64,
) -> Result<Vec<(u32, u64)>, AllocError>
    requires { rank < baskets.now.ranks }
    ensures { IfOk result (λ pairs. pairs.items ≡ pairs_of baskets.now.baskets least rank) }
{
    if rank == 0 {
        return Ok(Vec::new(alloc));
    }
    let sums = pair_sums(baskets.words(), rank);
    met_in_order(alloc, &sums[..rank as usize], least)
}

/// The baskets that have a rank, kept to the ranks of some pairs, which are lower and are numbered
/// anew.
pub fn below(
    alloc: Global,
    baskets: &WordBaskets,
    rank: u32,
    pairs: &[(u32, u64)],
) -> Result<WordBaskets, AllocError>
    requires rank { rank < baskets.now.ranks }
    requires rises { IsRising (map (λ pair. pair.0) pairs.now) }
    requires below { AllBelow rank (map (λ pair. pair.0) pairs.now) }
    requires few { length pairs.now ≤ rank }
    ensures ranks { IfOk result (λ below. below.ranks ≡ length pairs.now) }
    ensures ranked { IfOk result AreRankBaskets }
    ensures weights { IfOk result (λ below. HaveSameWeights (flat_map (kept_basket (has (map (λ pair. pair.0) pairs.now)) rank) baskets.now.baskets)
        (map (decoded_basket (map (λ pair. pair.0) pairs.now)) below.baskets)) }
{
    let count = pairs.len() as u32;
    let words = words_below(alloc, baskets.words(), rank, pairs)?;
    // If none or only the greatest of the lower ranks were dropped, they are as they were.
    if are_in_order(&words) {
        return Ok(WordBaskets::of_ordered(count, words));
    }
    WordBaskets::of(alloc, count, words)
}

/// Whether the words are in order, no two of them equal.
fn are_in_order(words: &[Word]) -> bool
    ensures { IsTrue result → AreInOrder words.now }
{
    words.is_sorted_by(|word, next| word.bits < next.bits)
}

/// Whether each word has all ranks below its own.
fn are_fronts(words: &[Word], count: u32) -> bool
    requires { count ≤ WORD_RANKS }
    ensures { result ≡ is_branch (word_baskets count words.now) }
{
    for word in words {
        if !is_front(word, count) {
            return false;
        }
    }
    true
}

/// Whether the word has all ranks below its own.
fn is_front(word: &Word, count: u32) -> bool
    requires { count ≤ WORD_RANKS }
    ensures { result ≡ list_all (λ rank. contains (ranks_in count word.now.bits) (range_with_len 0 rank)) (ranks_in count word.now.bits) }
{
    for rank in 1..count {
        if word.has(rank) && !word.has(rank - 1) {
            return false;
        }
    }
    true
}

/// For each rank below one, the weight of the words that have both.
#[tactic(auto, using(std::proofs::lemmas::Grind::common_steps, std::proofs::lemmas::List::Sums::sum_by_more_le_part, crate::proofs::WordPathLemmas::none, crate::proofs::WordPathLemmas::pair_weight_le))]
fn pair_sums(words: &[Word], rank: u32) -> [u64; WORD_RANKS]
    requires rank { rank < WORD_RANKS }
    requires light { sum_by (λ (word : Bits). word.weight) words.now ≤ MOST_WEIGHT }
    ensures { (other : ℕ) → other < rank → slice_index result other ≡ sum_by (pair_weight rank other) words.now }
{
    let mut sums = [0; WORD_RANKS];
    for word in words {
        if word.has(rank) {
            add_ranks(&mut sums, word, rank);
        }
    }
    sums
}

/// Adds the weight of a word to the sum of each rank that it has below a number.
#[tactic(auto, using(std::proofs::lemmas::Grind::common_steps, crate::proofs::RankSumLemmas::sums_begin, crate::proofs::RankSumLemmas::sums_end))]
fn add_ranks(sums: &mut [u64; WORD_RANKS], word: &Word, count: u32)
    requires count { count ≤ WORD_RANKS }
    requires light { (rank : ℕ) → rank < count → slice_index sums.old rank + word.now.weight ≤ MOST_WEIGHT }
    ensures { (rank : ℕ) → rank < count → slice_index sums.new rank ≡ slice_index sums.old rank + rank_weight rank word.now }
{
    if count == 0 {
        return;
    }
    // The bits of the lower ranks alone. The ones are taken away from the lowest on, which is
    // faster than from the highest on.
    let mut rest = word.bits >> (64 - count);
    while rest != 0 {
        let rank = count - 1 - rest.trailing_zeros();
        sums[rank as usize] += word.weight;
        rest &= rest - 1;
    }
}

/// The words that have a rank, with the bits of the ranks of some pairs. Equal neighbours are merged.
fn words_below(
    alloc: Global,
    words: &[Word],
    rank: u32,
    pairs: &[(u32, u64)],
) -> Result<Vec<Word>, AllocError>
    requires rank { rank < WORD_RANKS }
    requires few { length pairs.now ≤ WORD_RANKS }
    requires rises { IsRising (map (λ pair. pair.0) pairs.now) }
    requires below { AllBelow rank (map (λ pair. pair.0) pairs.now) }
    requires some { All (λ (word : Bits). 1 ≤ word.weight) words.now }
    requires light { sum_by (λ (word : Bits). word.weight) words.now ≤ MOST_WEIGHT }
    ensures some { IfOk result (λ below. All (λ (word : Bits). 1 ≤ word.weight) below.items) }
    ensures light { IfOk result (λ below. sum_by (λ (word : Bits). word.weight) below.items ≤ MOST_WEIGHT) }
    ensures weights { IfOk result (λ below. (count : ℕ) → rank < count
        → HaveSameWeights (flat_map (kept_basket (has (map (λ pair. pair.0) pairs.now)) rank) (word_baskets count words.now))
        (map (decoded_basket (map (λ pair. pair.0) pairs.now)) (word_baskets (length (map (λ pair. pair.0) pairs.now)) below.items))) }
{
    let shifts = shifts_of(alloc, pairs)?;
    let mut below = Vec::with_capacity(alloc, words.len())?;
    for word in words {
        if word.has(rank) {
            let bits = shift_all(word.bits, shifts.as_slice());
            let weight = word.weight;
            words::add(&mut below, Word { bits, weight })?;
        }
    }
    Ok(below)
}
