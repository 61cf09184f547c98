//! Siblings: the extensions of a set. A class begins with those of its rank.
ghost use Rattle.std.specs.Prelude.{◌≡◌, ◌≤◌, ◌<◌, ◌+◌, IfOk, OnOk, length};
ghost use Rattle.mine_conditional.specs.ClassScratch.{IsScratchOf};
ghost use Rattle.mine_vertical.specs.Siblings.{AreClassSiblings};

use crate::joins::{Joins, Sibling};
use crate::local_baskets::LocalBaskets;
use basket_core::CodedItems;
use mine_conditional::{ClassScratch, Conditional, ranks_of};
use mine_pairs::Runs;
use mine_rows::Row;
use std::alloc::{AllocError, Global};
use std::rc::Rc;

/// The ranks that extend a set and stay frequent: the first siblings of a list, over baskets. The
/// others of the list may be written over.
#[derive(Drop)]
pub struct Siblings<'a, R> {
    pub coded: &'a CodedItems,
    pub least: u64,
    pub local: Rc<LocalBaskets>,
    /// Which marks of the room are over the weights of the baskets.
    pub marks: usize,
    pub list: Vec<Sibling<R>>,
    pub kept: usize,
    ghost within: { kept ≤ length list.items },
}

/// The conditional database of a rank, its baskets merged, and a sibling for each rank of it. The joins of
/// its pairs are added.
pub fn class_siblings<R: Row>(
    alloc: Global,
    runs: &Runs,
    scratch: &mut ClassScratch,
    joins: &mut Joins,
    rank: u32,
    least: u64,
) -> Result<(LocalBaskets, Vec<Sibling<R>>), AllocError>
    requires rank { rank < runs.now.ranks }
    requires scratch { IsScratchOf runs.now.ranks scratch.old }
    requires few { joins.old.number + rank ≤ 18446744073709551615 }
    ensures siblings { IfOk result (λ made. AreClassSiblings R.stands runs.now.baskets least rank made.0 made.1.items) }
    ensures joins { OnOk result (joins.new.number ≡ joins.old.number + rank) }
    ensures scratch { IsScratchOf runs.now.ranks scratch.new }
{
    let pairs = joins.pairs(alloc, runs, &mut scratch.sums, rank, least)?;
    let kept = ranks_of(alloc, &pairs)?;
    let below = Conditional::below(runs, alloc, &mut scratch.numbers, rank, least, &pairs)?;
    let merged = below.merged(alloc)?;
    let unmerged = runs.of_rank(rank).len();
    let made = LocalBaskets::with_siblings(alloc, kept, merged, unmerged)?;
    Ok(made)
}
