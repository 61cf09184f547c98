ghost use Rattle.std.specs.Prelude.{◌≡◌, ℕ, List, IfOk, IfSome, IsTrue, length, nat_le};
ghost use Rattle.basket_sets.specs.Itemset.{AllBelow, IsRising};
ghost use Rattle.mine_rows.specs.Cover.{all_tids, common, cover_weight};

use crate::marks::Marks;
use crate::weights::Weights;
use std::alloc::{AllocError, Global};

/// Whether it may pay to make a database anew for so many rows that are kept: fewer are joined sooner,
/// and only the baskets of at most 64 are merged as words.
pub(crate) fn may_pay(kept: usize) -> bool {
    kept >= 6 && kept <= 64
}

/// A row represents a cover beside its parent's: the tids of the baskets that contain a set, beside
/// the tids of those that contain the set that it extends (Zaki 2000).
pub trait Row: Drop {
    ghost use Rattle.mine_rows.specs.declared.marks.Marks.{Marks};

    /// Whether a row over weights represents a cover, beside a parent's cover.
    ghost stands: { List ℕ → List ℕ → List ℕ → Self → Type 0 };

    /// What is marked while no row is joined with others, of the tids of weights.
    ghost at_rest: { List ℕ → Marks → Type 0 };

    /// What is marked while a row is joined with others: of the tids of the other rows those that
    /// are to be kept.
    ghost marked: { Self → List ℕ → Marks → Type 0 };

    /// The row of a cover beside all tids.
    fn first(alloc: Global, cover: &[u32], weights: &Weights) -> Result<Self, AllocError>
        requires rises { IsRising cover.now }
        requires below { AllBelow (length weights.now) cover.now }
        ensures { IfOk result (λ row. stands weights.now (all_tids weights.now) cover.now row) };

    /// A row that represents nothing yet, for `join` to make another of.
    fn empty(alloc: Global) -> Self;

    /// Marks for rows over weights, none of which is joined yet.
    fn new_marks(alloc: Global, weights: &Weights) -> Result<Marks, AllocError>
        ensures { IfOk result (at_rest weights.now) };

    /// Marks what is to be kept of the rows that this one is joined with.
    fn mark(&self, marks: &mut Marks, weights: &Weights)
        requires row { (parent : List ℕ) × (cover : List ℕ)
            × stands weights.now parent cover self.now }
        requires marks { at_rest weights.now marks.old }
        ensures { marked self.now weights.now marks.new };

    /// Undoes the marks of `mark`.
    fn unmark(&self, marks: &mut Marks, weights: &Weights)
        requires row { (parent : List ℕ) × (cover : List ℕ)
            × stands weights.now parent cover self.now }
        requires marks { marked self.now weights.now marks.old }
        ensures { at_rest weights.now marks.new };

    /// Becomes the row of what two covers share, beside the first of them, for which tids are
    /// marked, and returns whether that weighs enough. If it doesn't, the row represents nothing.
    /// Both rows are beside one parent.
    fn join(
        &mut self,
        x: &Self,
        y: &Self,
        marks: &Marks,
        weights: &Weights,
        least: u64,
    ) -> Result<bool, AllocError>
        requires rows { (parent : List ℕ) × (first : List ℕ) × (second : List ℕ)
            × stands weights.now parent first x.now × stands weights.now parent second y.now }
        requires marks { marked x.now weights.now marks.now }
        ensures row { IfOk result (λ frequent. IsTrue frequent → (parent first second : List ℕ)
            → stands weights.now parent first x.now → stands weights.now parent second y.now
            → stands weights.now first (common first second) self.new) }
        ensures frequent { IfOk result (λ frequent. (parent first second : List ℕ)
            → stands weights.now parent first x.now → stands weights.now parent second y.now
            → frequent ≡ nat_le least (cover_weight weights.now (common first second))) };

    /// The row of what two covers share, beside the first of them. Both rows are beside one parent.
    fn joined(alloc: Global, x: &Self, y: &Self, weights: &Weights) -> Result<Self, AllocError>
        requires { (parent : List ℕ) × (first : List ℕ) × (second : List ℕ)
            × stands weights.now parent first x.now × stands weights.now parent second y.now }
        ensures { IfOk result (λ row. (parent first second : List ℕ)
            → stands weights.now parent first x.now → stands weights.now parent second y.now
            → stands weights.now first (common first second) row) }
    {
        let mut marks = Self::new_marks(alloc, weights)?;
        x.mark(&mut marks, weights);
        let mut row = Self::empty(alloc);
        // Each cover weighs at least nothing.
        row.join(x, y, &marks, weights, 0)?;
        Ok(row)
    }

    /// The weight of the cover.
    fn count(&self) -> u64
        ensures { (weights parent cover : List ℕ) → stands weights parent cover self.now
            → result ≡ cover_weight weights cover };

    /// Whether it pays to make a database of its cover, if this many of the rows that were joined
    /// with it are kept.
    fn pays_to_reproject(&self, kept: usize, joined: usize, weights: &Weights) -> bool;

    /// The tids of its cover, or nothing if it doesn't list them. A row that has no list of them
    /// writes one over other tids.
    fn cover<'a>(
        &'a self,
        weights: &Weights,
        tids: &'a mut Vec<u32>,
    ) -> Result<Option<&'a [u32]>, AllocError>
        ensures { IfOk result (λ found. IfSome found (λ listed. (parent cover : List ℕ)
            → stands weights.now parent cover self.now → listed.now ≡ cover)) };
}
