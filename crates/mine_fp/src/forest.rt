//! All coded baskets, for FP-growth.
ghost use Rattle.std.specs.Prelude.{◌≡◌, ◌≤◌, ◌<◌, [], ◌∷◌, ℕ, List, IfOk, OnOk, false, length, map};
ghost use Rattle.std.specs.List.{range_with_len};
ghost use Rattle.basket_sets.specs.Support.{support_of};
ghost use Rattle.mine_baskets.specs.ListBaskets.{AreRankBaskets, HaveSameWeights};
ghost use Rattle.mine_classes.specs.Mined.{MinesClass, class_size};
ghost use Rattle.mine_conditional.specs.ClassScratch.{IsScratchOf};
ghost use Rattle.mine_fp.specs.Trees.{class_trees};

use crate::pattern_base::PatternBase;
use crate::trees::Trees;
use basket_core::{Coded, CodedItems, CountedSets};
use mine_baskets::ListBaskets;
use mine_conditional::{ClassScratch, Paths};
use mine_limit::{MineFault, Tally};
use mine_pairs::Runs;
use mine_search::Class;
use std::alloc::{AllocError, Global};
use std::marker::Model;

/// All coded baskets in order. A prefix that neighbours share is one branch of their prefix tree,
/// and each run of a rank is a node of it (Han, Pei and Yin 2000).
#[derive(Drop)]
pub struct Forest<'a> {
    all: PatternBase<'a>,
    /// The empty list of itemsets, which knows the items.
    empty: CountedSets,
}

impl<'a> Model for Forest<'a> {
    ghost use Rattle.basket_ranks.specs.Codes.{Coding};
    ghost use Rattle.mine_fp.specs.Forest.{IsForest};

    ghost Value = { Coding };

    ghost view = { λ f. f.all.coded.now };

    ghost invariant = { λ f. IsForest f.all };
}

impl<'a> Forest<'a> {
    /// The forest of the coded baskets.
    pub fn of(alloc: Global, coded: &'a Coded) -> Result<Self, AllocError>
        ensures { IfOk result (λ forest. forest ≡ coded.now) }
    {
        let baskets = ListBaskets::of_coded(alloc, coded)?;
        Forest::of_runs(alloc, coded.coded_items(), Runs::of(alloc, baskets)?)
    }

    /// The forest of the coded baskets, from runs of them that were made before.
    pub fn of_runs(alloc: Global, coded: &'a CodedItems, runs: Runs) -> Result<Self, AllocError>
        requires ranks { runs.ranks ≡ length coded.now.items }
        requires ranked { AreRankBaskets runs }
        requires weights { HaveSameWeights coded.now.baskets runs.baskets }
        requires supports { (set : List ℕ) → support_of runs.baskets set ≡ support_of coded.now.baskets set }
        ensures { IfOk result (λ forest. forest ≡ coded.now) }
    {
        let empty = CountedSets::new(alloc, coded.items(), coded.total())?;
        let ranks = all_ranks(alloc, &runs)?;
        Ok(Forest {
            all: PatternBase {
                coded,
                paths: Paths::of_runs(runs),
                ranks,
                least: coded.least_support(),
            },
            empty,
        })
    }
}

/// Each rank with its support.
fn all_ranks(alloc: Global, runs: &Runs) -> Result<Vec<(u32, u64)>, AllocError>
    ensures { IfOk result (λ ranks. ranks.items ≡ map (λ rank. (rank, support_of runs.now.baskets (rank ∷ []))) (range_with_len 0 runs.now.ranks)) }
{
    let mut ranks = Vec::with_capacity(alloc, runs.ranks() as usize)?;
    for rank in 0..runs.ranks() {
        ranks.push((rank, runs.support(rank)))?;
    }
    Ok(ranks)
}

/// The sets of the class of a rank, as items, each once with its support (Han, Pei and Yin 2000),
/// and how many conditional trees they take: none below one that is a single branch, from which the
/// sets are read off. A tree of the root alone counts, and nothing is made for it. Each set is
/// reported to the tally as soon as it is known to be frequent.
pub fn fp_class<T: Tally>(
    alloc: Global,
    forest: &Forest<'_>,
    rank: u32,
    tally: &mut T,
) -> Result<(CountedSets, u64), MineFault>
    requires rank { rank < length forest.now.items }
    requires going { T.is_over tally.old ≡ false }
    ensures class { MinesClass T.told_of T.limit_of T.is_over forest.now rank tally.old tally.new result }
    ensures trees { IfOk result (λ mined. mined.1 ≡ class_trees forest.now rank) }
    ensures few { IfOk result (λ mined. mined.1 ≤ class_size forest.now rank) }
{
    let mut scratch = ClassScratch::new(alloc, forest.all.coded.ranks())?;
    fp_class_with(alloc, forest, &mut scratch, rank, tally)
}

/// The class of a rank as `fp_class` finds it, with scratch memory that is used again from class to class.
pub fn fp_class_with<T: Tally>(
    alloc: Global,
    forest: &Forest<'_>,
    scratch: &mut ClassScratch,
    rank: u32,
    tally: &mut T,
) -> Result<(CountedSets, u64), MineFault>
    requires rank { rank < length forest.now.items }
    requires scratch { IsScratchOf (length forest.now.items) scratch.old }
    requires going { T.is_over tally.old ≡ false }
    ensures class { MinesClass T.told_of T.limit_of T.is_over forest.now rank tally.old tally.new result }
    ensures trees { IfOk result (λ mined. mined.1 ≡ class_trees forest.now rank) }
    ensures few { IfOk result (λ mined. mined.1 ≤ class_size forest.now rank) }
    ensures scratch { OnOk result (IsScratchOf (length forest.now.items) scratch.new) }
{
    let all = &forest.all;
    let support = all.ranks[rank as usize].1;
    if support < all.least {
        let none = forest.empty.empty_like(alloc)?;
        return Ok((none, 0));
    }
    let mut trees = Trees::none();
    let below = trees.below(alloc, all, rank, scratch)?;
    let class = Class {
        rank,
        support,
        below,
        steps: trees,
    };
    class.list(alloc, all.coded, &forest.empty, scratch, tally)
}
