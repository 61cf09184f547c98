//! The supports of given sets.
ghost use Rattle.std.specs.Prelude.{◌≡◌, IfOk, map, zip};
ghost use Rattle.basket_sets.specs.Frequent.{counted};
ghost use Rattle.mine_sets.specs.Asked.{asked_of, counted_with};

use crate::asked::asked_for;
use crate::supports::count_candidates;
use basket_sets::{Counted, Database, Itemset};
use mine_pieces::{Cutting, Gate};
use mine_supports::Extensions;
use std::alloc::{AllocError, Global};
use std::random::RandomSource;
use std::thread::Threads;

/// The sets that are asked for with their supports: the empty set first, then each of the others once,
/// where it first comes. Sets that share a prefix are counted faster where they stand in a row.
#[tactic(auto, using(crate::proofs::AskedLemmas::asked_counted))]
pub fn count_sets<R: RandomSource + Threads + Sync, G: Gate + Sync>(
    rt: &R,
    alloc: Global,
    database: &Database,
    sets: Vec<Itemset>,
    cutting: Cutting,
    gate: &G,
) -> Result<Vec<Counted>, AllocError>
    ensures { IfOk result (λ list. list.items ≡ map (counted database.now) (asked_of sets.items)) }
{
    let asked = asked_for(rt, alloc, sets)?;
    let others = Extensions::of_sets(alloc, &asked)?;
    let mut found = count_candidates(rt, alloc, database.baskets(), &others, cutting, gate)?;
    // The empty set is in each basket.
    let mut supports = Vec::with_capacity(alloc, asked.len())?;
    supports.push(database.total())?;
    supports.append(&mut found)?;
    with_supports(alloc, asked, supports)
}

/// Each set with the support beside it.
fn with_supports(
    alloc: Global,
    sets: Vec<Itemset>,
    supports: Vec<u64>,
) -> Result<Vec<Counted>, AllocError>
    ensures { IfOk result (λ list. list.items ≡ map counted_with (zip sets.items supports.items)) }
{
    sets.into_iter()
        .zip(supports)
        .map(|(set, count)| Counted { set, count })
        .collect(alloc)
}
