//! The supports of the sides of rules.
ghost use Rattle.std.specs.Prelude.{◌≡◌, ◌<◌, ◌≤◌, IfSome, IsTrue, length};
ghost use Rattle.basket_rules.specs.Listed.{set_at};
ghost use Rattle.basket_rules.specs.Consequents.{chosen, has_bit};
ghost use Rattle.basket_rules.specs.Rules.{IsCountIn};

use crate::consequents::MOST_BITS;
use crate::listed::items_at;
use crate::search::find_near;
use basket_core::{CountedSets, MOST_ITEMS};
use basket_order::{IndexTable, MOST_STEPS};

/// The index of the set with the items of a union at the bits of a word, if it is found by its
/// hash.
#[tactic(auto, using(std::proofs::lemmas::Grind::common_steps))]
pub fn index_of(
    sets: &CountedSets,
    union: &[u32],
    bits: u64,
    hash: u64,
    kept: &IndexTable,
    room: &mut [u32; MOST_ITEMS],
) -> Option<usize>
    requires { length union.now ≤ MOST_BITS }
    ensures bound { IfSome result (λ index. index < length sets.now) }
    ensures found { IfSome result (λ index. set_at sets.now index ≡ chosen (has_bit bits) union.now) }
{
    for step in 0..MOST_STEPS {
        let index = kept.at(hash, step) as usize;
        if index >= sets.len() {
            return None;
        }
        if is_side(items_at(sets, index, room), union, bits) {
            return Some(index);
        }
    }
    None
}

/// Whether a set has just the items of a union at the bits of a word.
#[tactic(auto, using(std::proofs::lemmas::Grind::common_steps, crate::proofs::SideLemmas::next_word, crate::proofs::SideLemmas::first_of_word, std::proofs::lemmas::List::append_assoc, std::proofs::lemmas::List::take_more))]
fn is_side(set: &[u32], union: &[u32], bits: u64) -> bool
    requires { length union.now ≤ MOST_BITS }
    ensures { IsTrue result → set.now ≡ chosen (has_bit bits) union.now }
{
    let mut rest = bits;
    for item in set {
        let index = rest.trailing_zeros();
        if index as usize >= union.len() || union[index as usize] != *item {
            return false;
        }
        rest &= !(1 << index);
    }
    rest.trailing_zeros() as usize >= union.len()
}

/// The count of the set with these items, or 0 if the list doesn't have it.
pub fn searched_count(sets: &CountedSets, items: &[u32]) -> u64
    ensures { IsCountIn sets.now items.now result }
{
    match find_near(sets, &[], items, sets.len().saturating_sub(1)) {
        Some(at) => sets.count(at),
        None => 0,
    }
}
