//! A search for a set in the list of the frequent sets, fast if it is close after a given index.
//!
//! The set comes in two parts, the items of `front` and then those of `rest`, so that a set without
//! one of its items need not be copied.
ghost use Rattle.std.specs.Prelude.{◌≡◌, ◌<◌, ◌++◌, IfSome, IfNone, length};
ghost use Rattle.basket_sets.specs.Order.{report_order};
ghost use Rattle.basket_rules.specs.Listed.{set_at};
ghost use Rattle.basket_rules.specs.Search.{IsMissing};

use crate::listed::items_at;
use basket_core::{CountedSets, compare_parts};
use basket_lists::MOST_ITEMS;
use basket_order::NearSearch;
use std::cmp::Ordering;

/// The index of the set in a list as it is kept. The search begins at the index `near`; whatever
/// that is, the set is found.
pub fn find_near(sets: &CountedSets, front: &[u32], rest: &[u32], near: usize) -> Option<usize>
    ensures bound { IfSome result (λ at. at < length sets.now) }
    ensures found { IfSome result (λ at. set_at sets.now at ≡ front.now ++ rest.now) }
    ensures missing { IfNone result (IsMissing sets.now (front.now ++ rest.now)) }
{
    let mut room = [0; MOST_ITEMS];
    let mut search = NearSearch::new(near, sets.len());
    while let Some(at) = search.next() {
        match compare(items_at(sets, at, &mut room), front, rest) {
            Ordering::Less => search.go_after(at),
            Ordering::Equal => return Some(at),
            Ordering::Greater => search.go_before(at),
        }
    }
    None
}

/// Compares a set with the one that has the items of `front` and then those of `rest`.
fn compare(set: &[u32], front: &[u32], rest: &[u32]) -> Ordering
    ensures { result ≡ report_order set.now (front.now ++ rest.now) }
{
    set.len()
        .cmp(&(front.len() + rest.len()))
        .then_with(|| compare_parts(set, front, rest))
}
