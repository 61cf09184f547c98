//! Joins of siblings, each counted where it is made.
ghost use Rattle.std.specs.Prelude.{◌≡◌, ◌≤◌, ◌<◌, ◌+◌, ◌∷◌, ℕ, List, IfOk, IfSome, IsTrue, OnOk, length, nat_le};
ghost use Rattle.basket_sets.specs.declared.weighted.Weighted.{Weighted as Basket};
ghost use Rattle.basket_sets.specs.Itemset.{AllBelow, IsRising};
ghost use Rattle.basket_sets.specs.Support.{support_of};
ghost use Rattle.mine_pairs.specs.Pairs.{pairs_of};
ghost use Rattle.mine_baskets.specs.Covers.{cover_of, weights_of};
ghost use Rattle.mine_rows.specs.Cover.{all_tids};
ghost use Rattle.mine_vertical.specs.Siblings.{ArePair, IsSibling};

use mine_pairs::{Runs, Sums};
use mine_rows::{Marks, Row, Weights};
use std::alloc::{AllocError, Global};

/// An extension of a set: the number of its rank, and the row of the set with the rank.
#[derive(Drop)]
pub struct Sibling<R> {
    pub number: u32,
    row: R,
}

/// How many joins were made. Only calls that make them add to it.
#[derive(Drop)]
pub struct Joins {
    number: u64,
}

impl<R: Row> Sibling<R> {
    /// The sibling of a number beside all tids, by its cover.
    pub fn first(
        alloc: Global,
        number: u32,
        cover: &[u32],
        weights: &Weights,
    ) -> Result<Self, AllocError>
        requires rises { IsRising cover.now }
        requires below { AllBelow (length weights.now) cover.now }
        ensures number { IfOk result (λ sibling. sibling.number ≡ number) }
        ensures row { IfOk result (λ sibling.
            R.stands weights.now (all_tids weights.now) cover.now sibling.row) }
    {
        let row = R::first(alloc, cover, weights)?;
        Ok(Sibling { number, row })
    }

    /// A sibling that represents nothing yet.
    pub fn empty(alloc: Global) -> Self {
        Sibling {
            number: 0,
            row: R::empty(alloc),
        }
    }

    /// The support of the set with its number.
    #[tactic(auto, using(std::proofs::lemmas::Grind::common_steps, crate::proofs::CoverLemmas::cover_weighs))]
    pub fn count(&self) -> u64
        ensures { (baskets : List Basket) (set : List ℕ) → IsSibling R.stands baskets set self.now
            → result ≡ support_of baskets (self.now.number ∷ set) }
    {
        self.row.count()
    }

    /// Whether it pays to make a database of its cover.
    pub fn pays_to_reproject(&self, kept: usize, joined: usize, weights: &Weights) -> bool {
        self.row.pays_to_reproject(kept, joined, weights)
    }

    /// The tids of the cover of the set with its number, or nothing if its row doesn't list them.
    pub fn cover<'a>(
        &'a self,
        weights: &Weights,
        tids: &'a mut Vec<u32>,
    ) -> Result<Option<&'a [u32]>, AllocError>
        ensures { IfOk result (λ found. IfSome found (λ listed. (baskets : List Basket) (set : List ℕ)
            → weights.now ≡ weights_of baskets → IsSibling R.stands baskets set self.now
            → listed.now ≡ cover_of baskets (self.now.number ∷ set))) }
    {
        self.row.cover(weights, tids)
    }

    /// Marks what its row keeps of others.
    pub fn mark(&self, marks: &mut Marks, weights: &Weights)
        requires row { (baskets : List Basket) × (set : List ℕ) × (weights.now ≡ weights_of baskets)
            × IsSibling R.stands baskets set self.now }
        requires marks { R.at_rest weights.now marks.old }
        ensures { R.marked self.now.row weights.now marks.new }
    {
        self.row.mark(marks, weights);
    }

    /// Undoes the marks of `mark`.
    pub fn unmark(&self, marks: &mut Marks, weights: &Weights)
        requires row { (baskets : List Basket) × (set : List ℕ) × (weights.now ≡ weights_of baskets)
            × IsSibling R.stands baskets set self.now }
        requires marks { R.marked self.now.row weights.now marks.old }
        ensures { R.at_rest weights.now marks.new }
    {
        self.row.unmark(marks, weights);
    }
}

impl Joins {
    /// No join yet.
    pub fn none() -> Self
        ensures { result.number ≡ 0 }
    {
        Joins { number: 0 }
    }

    /// How many there are.
    pub fn number(&self) -> u64
        ensures { result ≡ self.now.number }
    {
        self.number
    }

    /// The frequent pairs of a rank with lower ranks, each with its support. The joins of the pairs
    /// are the definition's number, one for each lower rank, not a count of steps: no row is joined
    /// here.
    pub fn pairs(
        &mut self,
        alloc: Global,
        runs: &Runs,
        sums: &mut Sums,
        rank: u32,
        least: u64,
    ) -> Result<Vec<(u32, u64)>, AllocError>
        requires rank { rank < runs.now.ranks }
        requires sums { sums.old ≡ runs.now.ranks }
        requires few { self.old.number + rank ≤ 18446744073709551615 }
        ensures pairs { IfOk result (λ pairs. pairs.items ≡ pairs_of runs.now.baskets least rank) }
        ensures joins { OnOk result (self.new.number ≡ self.old.number + rank) }
        ensures sums { sums.new ≡ sums.old }
    {
        let pairs = runs.pairs(alloc, sums, rank, least)?;
        self.number += u64::from(rank);
        Ok(pairs)
    }

    /// Joins two siblings, for the first of which tids are marked: the set with both numbers, which
    /// replaces another sibling if its support is at least this. Returns whether it is.
    pub fn join<R: Row>(
        &mut self,
        both: &mut Sibling<R>,
        first: &Sibling<R>,
        second: &Sibling<R>,
        marks: &Marks,
        weights: &Weights,
        least: u64,
    ) -> Result<bool, AllocError>
        requires rows { (baskets : List Basket) × (set : List ℕ)
            × ArePair R.stands weights.now first.now second.now baskets set }
        requires marks { R.marked first.now.row weights.now marks.now }
        requires few { self.old.number < 18446744073709551615 }
        ensures joins { OnOk result (self.new.number ≡ self.old.number + 1) }
        ensures number { OnOk result (both.new.number ≡ second.now.number) }
        ensures row { IfOk result (λ frequent. IsTrue frequent → (baskets : List Basket) (set : List ℕ)
            → ArePair R.stands weights.now first.now second.now baskets set
            → IsSibling R.stands baskets (first.now.number ∷ set) both.new) }
        ensures support { IfOk result (λ frequent. (baskets : List Basket) (set : List ℕ)
            → ArePair R.stands weights.now first.now second.now baskets set
            → frequent ≡ nat_le least (support_of baskets (second.now.number ∷ first.now.number ∷ set))) }
    {
        both.number = second.number;
        let frequent = both
            .row
            .join(&first.row, &second.row, marks, weights, least)?;
        self.number += 1;
        Ok(frequent)
    }
}
