//! Weights of tids.
ghost use Rattle.std.specs.Prelude.{◌≡◌, ◌≤◌, ◌<◌, ℕ, List, All, IfOk, length, slice_index, sum};
ghost use Rattle.basket_sets.specs.Database.{MOST_WEIGHT};
ghost use Rattle.basket_sets.specs.Itemset.{AllBelow, IsRising};
ghost use Rattle.mine_rows.specs.Cover.{IsCover, cover_weight};
ghost use Rattle.mine_rows.specs.Bits.{words_of};
ghost use Rattle.mine_rows.specs.Planes.{ArePlanes, are_ones};
ghost use Rattle.mine_rows.specs.Weights.{MOST_TIDS};

use crate::plane::Plane;
use crate::planes::{planes_of, weight_by_planes};
use crate::row_words::RowWords;
use std::alloc::{AllocError, Global};
use std::marker::Model;

/// Whether all weights are 1.
fn all_are_ones(weights: &[u64]) -> bool
    ensures { result ≡ are_ones weights.now }
{
    weights.iter().all(|weight| *weight == 1)
}

/// The weight of each tid.
#[derive(Drop)]
pub struct Weights {
    weights: Vec<u64>,
    are_ones: bool,
    /// Whether the baskets were at least twice as many before equal ones were merged.
    is_halved: bool,
}

impl Model for Weights {
    ghost use Rattle.std.specs.Prelude.{ℕ, List};
    ghost use Rattle.mine_rows.specs.Weights.{KeepsWeights};

    ghost Value = { List ℕ };

    ghost view = { λ w. w.weights.items };

    ghost invariant = { λ w. KeepsWeights w.weights.items w.are_ones };
}

impl Weights {
    /// The weights of the tids, as many as there are.
    pub fn of(alloc: Global, weights: &[u64]) -> Result<Self, AllocError>
        requires few { length weights.now ≤ MOST_TIDS }
        requires some { All (λ weight. 1 ≤ weight) weights.now }
        requires light { sum weights.now ≤ MOST_WEIGHT }
        ensures { IfOk result (λ copy. copy ≡ weights.now) }
    {
        Ok(Weights::of_vec(weights.to_vec(alloc)?, false))
    }

    /// The weights of tids, in their own vector, and whether there were at least twice as many
    /// baskets before equal ones were merged.
    pub fn of_vec(weights: Vec<u64>, is_halved: bool) -> Self
        requires few { length weights.items ≤ MOST_TIDS }
        requires some { All (λ weight. 1 ≤ weight) weights.items }
        requires light { sum weights.items ≤ MOST_WEIGHT }
        ensures { result ≡ weights.items }
    {
        let are_ones = all_are_ones(&weights);
        Weights {
            weights,
            are_ones,
            is_halved,
        }
    }

    /// How many tids there are.
    pub fn count(&self) -> u32
        ensures { result ≡ length self.now }
    {
        self.weights.len() as u32
    }

    /// Whether merging equal baskets left at most half of them, so that it may do so again below.
    pub(crate) fn is_halved(&self) -> bool {
        self.is_halved
    }

    /// The weights, that of tid 0 first.
    pub(crate) fn to_vec(&self, alloc: Global) -> Result<Vec<u64>, AllocError>
        ensures { IfOk result (λ copy. copy.items ≡ self.now) }
    {
        self.weights.to_vec(alloc)
    }

    /// The weight of a tid.
    pub fn of_tid(&self, tid: u32) -> u64
        requires { tid < length self.now }
        ensures { result ≡ slice_index self.now tid }
    {
        self.weights[tid as usize]
    }

    /// What holds of all weights: they are few, none is 0, and no cover is heavy.
    #[tactic(auto, using(std::proofs::lemmas::Grind::common_steps, crate::proofs::CoverLemmas::cover_light))]
    pub fn bounds(&self)
        ensures few { length self.now ≤ MOST_TIDS }
        ensures some { All (λ weight. 1 ≤ weight) self.now }
        ensures total { sum self.now ≤ MOST_WEIGHT }
        ensures light { (cover : List ℕ) → IsCover self.now cover → cover_weight self.now cover ≤ MOST_WEIGHT }
    {
        let _ = self.weights.len();
    }

    /// The weight of some tids together.
    #[tactic(auto, using(std::proofs::lemmas::Grind::common_steps, crate::proofs::CoverLemmas::cover_at, std::proofs::lemmas::List::get_or_default, std::proofs::lemmas::List::Sums::sum_by_more_le, crate::proofs::CoverLemmas::cover_light))]
    pub fn weight(&self, tids: &[u32]) -> u64
        requires rises { IsRising tids.now }
        requires below { AllBelow (length self.now) tids.now }
        ensures sum { result ≡ cover_weight self.now tids.now }
        ensures within { result ≤ MOST_WEIGHT }
    {
        let mut weight = 0;
        for tid in tids {
            weight += self.weights[*tid as usize];
        }
        weight
    }

    /// The weights bit by bit.
    pub(crate) fn planes(&self, alloc: Global) -> Result<Vec<Plane>, AllocError>
        ensures { IfOk result (λ planes. ArePlanes self.now (are_ones self.now) planes.items) }
    {
        planes_of(alloc, &self.weights, self.are_ones)
    }

    /// The weight of the tids of a row of bits, if the row has this many ones.
    #[tactic(auto, using(std::proofs::lemmas::Grind::common_steps, crate::proofs::PlaneLemmas::ones_weigh))]
    pub(crate) fn weight_of_bits(&self, words: &RowWords, ones: u64, planes: &[Plane]) -> u64
        requires planes { ArePlanes self.now (are_ones self.now) planes.now }
        requires cover { (cover : List ℕ) × IsCover self.now cover × (words.now.items ≡ words_of (length self.now) cover) × (ones ≡ length cover) }
        ensures { (cover : List ℕ) → IsCover self.now cover → words.now.items ≡ words_of (length self.now) cover → ones ≡ length cover → result ≡ cover_weight self.now cover }
    {
        if self.are_ones {
            return ones;
        }
        weight_by_planes(words, planes)
    }
}
