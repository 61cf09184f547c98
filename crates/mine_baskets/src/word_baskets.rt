//! Baskets of up to 64 ranks, kept as words.
ghost use Rattle.std.specs.Prelude.{◌≡◌, ◌≤◌, All, IfOk, length, sum_by};
ghost use Rattle.basket_sets.specs.Counts.{AllBelow};
ghost use Rattle.basket_sets.specs.Database.{MOST_WEIGHT};
ghost use Rattle.mine_baskets.specs.declared.words.Word.{Word as Bits};
ghost use Rattle.mine_baskets.specs.ListBaskets.{AreRankBaskets, HaveSameWeights};
ghost use Rattle.mine_baskets.specs.Words.{AreInOrder, rank_bits, word_baskets};

use crate::list_baskets::ListBaskets;
use crate::words::{WORD_RANKS, Word, bit_of, merged};
use basket_ranks::Coded;
use basket_sets::Weighted;
use std::alloc::{AllocError, Global};
use std::marker::Model;

/// Baskets of up to 64 ranks, each as the bits of a word. The words are in order, equal ones
/// merged.
#[derive(Drop)]
pub struct WordBaskets {
    count: u32,
    words: Vec<Word>,
}

impl Model for WordBaskets {
    ghost use Rattle.mine_baskets.specs.ListBaskets.{RankBaskets};
    ghost use Rattle.mine_baskets.specs.Words.{KeepsWords, word_baskets};

    ghost Value = { RankBaskets };

    ghost view = { λ w. record { ranks = w.count; baskets = word_baskets w.count w.words.items } };

    ghost invariant = { λ w. KeepsWords w.count w.words.items };
}

impl WordBaskets {
    /// The baskets of the words, of this many ranks.
    #[tactic(auto, using(std::proofs::lemmas::Grind::common_steps, crate::proofs::WordLemmas::moved_words))]
    pub fn of(alloc: Global, count: u32, mut words: Vec<Word>) -> Result<Self, AllocError>
        requires few { count ≤ WORD_RANKS }
        requires some { All (λ (word : Bits). 1 ≤ word.weight) words.items }
        requires light { sum_by (λ (word : Bits). word.weight) words.items ≤ MOST_WEIGHT }
        ensures ranks { IfOk result (λ baskets. baskets.ranks ≡ count) }
        ensures ranked { IfOk result AreRankBaskets }
        ensures weights { IfOk result (λ baskets. HaveSameWeights (word_baskets count words.items) baskets.baskets) }
    {
        words.sort_unstable_by_key(|word| word.bits);
        let distinct = merged(alloc, &words)?;
        Ok(WordBaskets {
            count,
            words: distinct,
        })
    }

    /// The baskets of words that are in order already and stay as they are.
    pub fn of_ordered(count: u32, words: Vec<Word>) -> Self
        requires few { count ≤ WORD_RANKS }
        requires some { All (λ (word : Bits). 1 ≤ word.weight) words.items }
        requires light { sum_by (λ (word : Bits). word.weight) words.items ≤ MOST_WEIGHT }
        requires order { AreInOrder words.items }
        ensures ranked { AreRankBaskets result }
        ensures baskets { result ≡ record { ranks = count; baskets = word_baskets count words.items } }
    {
        WordBaskets { count, words }
    }

    /// The coded baskets, which have no more ranks than a word has bits for.
    #[tactic(auto, using(std::proofs::lemmas::Grind::common_steps, crate::proofs::MergedLemmas::coded_rank_baskets, crate::proofs::WordLemmas::some_words, crate::proofs::WordLemmas::light_words))]
    pub fn of_coded(alloc: Global, coded: &Coded) -> Result<Self, AllocError>
        requires few { length coded.now.items ≤ WORD_RANKS }
        ensures ranks { IfOk result (λ baskets. baskets.ranks ≡ length coded.now.items) }
        ensures ranked { IfOk result AreRankBaskets }
        ensures weights { IfOk result (λ baskets. HaveSameWeights coded.now.baskets baskets.baskets) }
    {
        let words = words_of_ranks(alloc, coded.ranks(), coded.baskets())?;
        WordBaskets::of(alloc, coded.ranks(), words)
    }

    /// How many ranks there are.
    pub fn ranks(&self) -> u32
        ensures { result ≡ self.now.ranks }
    {
        self.count
    }

    /// The same baskets as lists of ranks, in the order of the words.
    pub fn lists(&self, alloc: Global) -> Result<ListBaskets, AllocError>
        ensures { IfOk result (λ lists. lists ≡ self.now) }
    {
        ListBaskets::of_words(alloc, self.count, &self.words)
    }

    /// The words, in order.
    pub fn words(&self) -> &[Word]
        ensures baskets { word_baskets self.now.ranks result.now ≡ self.now.baskets }
        ensures few { self.now.ranks ≤ WORD_RANKS }
        ensures some { All (λ (word : Bits). 1 ≤ word.weight) result.now }
        ensures light { sum_by (λ (word : Bits). word.weight) result.now ≤ MOST_WEIGHT }
    {
        &self.words
    }
}

/// Baskets of this many ranks as words.
fn words_of_ranks(alloc: Global, count: u32, baskets: &[Weighted]) -> Result<Vec<Word>, AllocError>
    requires few { count ≤ WORD_RANKS }
    requires ranked { AreRankBaskets (record { ranks = count; baskets = baskets.now }) }
    ensures { IfOk result (λ words. word_baskets count words.items ≡ baskets.now) }
{
    let mut words = Vec::with_capacity(alloc, baskets.len())?;
    for basket in baskets {
        let bits = bits_of_ranks(basket.basket.items());
        let weight = basket.weight;
        words.push(Word { bits, weight })?;
    }
    Ok(words)
}

/// The bits of ranks.
fn bits_of_ranks(ranks: &[u32]) -> u64
    requires { AllBelow WORD_RANKS ranks.now }
    ensures { result ≡ rank_bits ranks.now }
{
    let mut bits = 0;
    for rank in ranks {
        bits |= bit_of(*rank as usize);
    }
    bits
}
