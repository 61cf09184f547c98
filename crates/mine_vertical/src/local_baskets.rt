//! Baskets whose ranks have numbers of their own, which siblings are over.
ghost use Rattle.std.specs.Prelude.{◌≡◌, ◌≤◌, ℕ, List, All, IfOk, length, map, slice_index_or};
ghost use Rattle.std.proofs.Props.{props};
ghost use Rattle.basket_sets.specs.Counts.{AllBelow};
ghost use Rattle.basket_sets.specs.Database.{HasWeight, MOST_WEIGHT};
ghost use Rattle.basket_sets.specs.Itemset.{IsRising};
ghost use Rattle.basket_sets.specs.Support.{total_of};
ghost use Rattle.mine_baskets.specs.Covers.{cover_of, weights_of};
ghost use Rattle.mine_baskets.specs.ListBaskets.{AreRankBaskets};
ghost use Rattle.mine_baskets.specs.Span.{IsWithin, baskets_at};

use crate::joins::Sibling;
use mine_baskets::span::as_index;
use mine_baskets::{Baskets, ListBaskets, Span};
use mine_conditional::LocalNumbers;
use mine_rows::{Row, Weights};
use std::alloc::{AllocError, Global};

/// Merged baskets of numbers, each of which stands for a rank. A tid of a cover is the index of a basket.
pub struct LocalBaskets {
    /// The rank of each number.
    pub ranks: Vec<u32>,
    /// The weight of each basket.
    pub weights: Weights,
    /// The numbers of all baskets, concatenated, and where each basket is among them.
    pub numbers: Vec<u32>,
    pub spans: Vec<Span>,
    ghost weighs: { weights ≡ weights_of (baskets_at numbers.items spans.items) },
    ghost within: { All (IsWithin (length numbers.items)) spans.items },
    ghost ranked: { AreRankBaskets (record { ranks = length ranks.items; baskets = baskets_at numbers.items spans.items }) } by { Prim.hlevel props },
}

impl Drop for LocalBaskets {
    fn drop(self) {
        let LocalBaskets {
            ranks: _,
            weights: _,
            numbers: _,
            spans: _,
        } = self;
    }
}

/// The weights of merged baskets; before, there were this many. More than 4,294,967,295 baskets
/// count as out of memory.
#[tactic(auto, using(std::proofs::lemmas::Grind::common_steps, crate::proofs::SiblingLemmas::weights_some, crate::proofs::SiblingLemmas::weights_weigh))]
fn merged_weights(
    alloc: Global,
    baskets: &ListBaskets,
    unmerged: usize,
) -> Result<Weights, AllocError>
    requires some { All HasWeight baskets.now.baskets }
    requires light { total_of baskets.now.baskets ≤ MOST_WEIGHT }
    ensures { IfOk result (λ weights. weights ≡ weights_of baskets.now.baskets) }
{
    let weights = baskets.weights(alloc)?;
    if weights.len() > u32::MAX as usize {
        return Err(AllocError);
    }
    let is_halved = weights.len() <= unmerged / 2;
    Ok(Weights::of_vec(weights, is_halved))
}

/// The items of a list at some indexes.
fn items_at<T: Copy>(alloc: Global, items: &[T], indexes: &[u32]) -> Result<Vec<T>, AllocError>
    requires { AllBelow (length items.now) indexes.now }
    ensures { IfOk result (λ chosen. (none : T) → chosen.items ≡ map (λ index. slice_index_or items.now index none) indexes.now) }
{
    let mut chosen = Vec::with_capacity(alloc, indexes.len())?;
    for index in indexes {
        chosen.push(items[*index as usize])?;
    }
    Ok(chosen)
}

impl LocalBaskets {
    ghost use Rattle.mine_vertical.specs.LocalBaskets.{IsNarrowed, baskets_in};
    ghost use Rattle.mine_vertical.specs.Siblings.{AreOver};

    /// Merged baskets of the numbers of ranks, of which there were this many before, and a sibling
    /// over them for each number.
    #[tactic(auto, using(std::proofs::lemmas::Grind::common_steps, crate::proofs::CoverLemmas::cover_covers))]
    pub fn with_siblings<R: Row>(
        alloc: Global,
        ranks: Vec<u32>,
        baskets: ListBaskets,
        unmerged: usize,
    ) -> Result<(Self, Vec<Sibling<R>>), AllocError>
        requires long { baskets.ranks ≡ length ranks.items }
        requires ranked { AreRankBaskets baskets }
        ensures ranks { IfOk result (λ made. made.0.ranks ≡ ranks) }
        ensures baskets { IfOk result (λ made. baskets_in made.0 ≡ baskets.baskets) }
        ensures over { IfOk result (λ made. AreOver R.stands made.0 made.1.items) }
    {
        let weights = merged_weights(alloc, &baskets, unmerged)?;
        let covers = baskets.covers(alloc)?;
        let count = baskets.ranks();
        let mut siblings = Vec::with_capacity(alloc, count as usize)?;
        for number in 0..count {
            let cover = &covers[number as usize];
            siblings.push(Sibling::first(alloc, number, cover, &weights)?)?;
        }
        let (_, numbers, spans) = baskets.into_parts();
        let made = LocalBaskets {
            ranks,
            weights,
            numbers,
            spans,
        };
        Ok((made, siblings))
    }

    /// The baskets of a cover, kept to some numbers, which are numbered anew, equal ones merged; and
    /// a sibling for each number.
    pub fn narrowed<R: Row>(
        &self,
        alloc: Global,
        cover: &[u32],
        kept: &[u32],
    ) -> Result<(Self, Vec<Sibling<R>>), AllocError>
        requires cover { (set : List ℕ) × (cover.now ≡ cover_of (baskets_in self.now) set) }
        requires rises { IsRising kept.now }
        requires below { AllBelow (length self.now.ranks.items) kept.now }
        ensures narrowed { IfOk result (λ made. (set : List ℕ) → cover.now ≡ cover_of (baskets_in self.now) set → IsNarrowed self.now set kept.now made.0) }
        ensures over { IfOk result (λ made. AreOver R.stands made.0 made.1.items) }
    {
        let spans = items_at(alloc, &self.spans, cover)?;
        let ranks = items_at(alloc, &self.ranks, kept)?;
        let count = as_index(self.ranks.len())?;
        let chosen = Baskets {
            count,
            ranks: &self.numbers,
            spans: &spans,
        };
        let below = LocalNumbers::new(alloc, count)?.coded(alloc, kept, chosen)?;
        let merged = below.merged(alloc)?;
        let made = LocalBaskets::with_siblings(alloc, ranks, merged, cover.len())?;
        Ok(made)
    }
}
