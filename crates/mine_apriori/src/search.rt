//! A search for a set in a sorted list, fast if it is close after a given index.
//!
//! The set comes in two parts, the items of `front` and then those of `rest`, so that a set without
//! one of its items need not be copied.
ghost use Rattle.std.specs.Prelude.{◌≡◌, ◌++◌, [], IfOk, is_ok, length, slice_index_or};
ghost use Rattle.std.specs.Cmp.Lexicographic.{slice_cmp};
ghost use Rattle.std.specs.List.Sorted.{IsSearchInRange, IsStrictlySortedBy};
ghost use Rattle.std.specs.Ordering.{nat_cmp};
ghost use Rattle.mine_apriori.specs.Candidates.{is_one_of};

use basket_core::{Itemset, compare_parts};
use basket_order::NearSearch;
use std::cmp::Ordering;

/// The index of the set, or else an index to begin the search for a greater one. The search begins
/// at the index `near`; whatever that is, the set is found.
#[tactic(auto, using(std::proofs::lemmas::Grind::common_steps, crate::proofs::SearchLemmas::found_at))]
pub fn find_near(sets: &[Itemset], front: &[u32], rest: &[u32], near: usize) -> Result<usize, usize>
    requires sorted { IsStrictlySortedBy (slice_cmp nat_cmp) sets.now }
    ensures bound { IsSearchInRange result (length sets.now) }
    ensures found { is_ok result ≡ is_one_of sets.now (front.now ++ rest.now) }
    ensures index { IfOk result (λ at. slice_index_or sets.now at [] ≡ front.now ++ rest.now) }
{
    let mut search = NearSearch::new(near, sets.len());
    while let Some(at) = search.next() {
        match compare_parts(sets[at].items(), front, rest) {
            Ordering::Less => search.go_after(at),
            Ordering::Equal => return Ok(at),
            Ordering::Greater => search.go_before(at),
        }
    }
    Err(search.start())
}
