//! Weights of baskets, added up for each item.
ghost use Rattle.std.specs.Prelude.{◌≡◌, ◌≤◌, ◌<◌, ◌+◌, ℕ, List, length, map, slice_index, if◌then◌else◌};
ghost use Rattle.basket_sets.specs.Database.{MOST_WEIGHT};
ghost use Rattle.basket_sets.specs.Itemset.{IsRising, has};
ghost use Rattle.mine_supports.specs.Sums.{all_tids};
ghost use Rattle.mine_supports.specs.TidWord.{IsRowOf, part_weight};

use crate::tid_words::{TidWord, WORD};
use basket_sets::Weighted;

/// Adds the weight of some tids to the sums of the items of each tid's basket, as far as there are sums.
pub fn add_part(sums: &mut [u64], baskets: &[&Weighted], part: TidWord)
    requires fits { length baskets.now ≤ 18446744073709551615 }
    requires light { (item : ℕ) → item < length sums.old → slice_index sums.old item + part_weight all_tids part ≤ MOST_WEIGHT }
    ensures added { (item : ℕ) (row : List ℕ) → item < length sums.old → IsRowOf (map (λ basket. basket.now) baskets.now) item row
        → slice_index sums.new item ≡ slice_index sums.old item + part_weight (λ word. slice_index row word) part }
    ensures light { (item : ℕ) → item < length sums.old → slice_index sums.new item ≤ slice_index sums.old item + part_weight all_tids part }
{
    let first = part.word.saturating_mul(WORD);
    let mut rest = part.bits;
    while rest != 0 {
        let bit = rest.trailing_zeros();
        if let Some(basket) = baskets.get(first.saturating_add(bit as usize)) {
            add_weight(sums, basket.basket.items(), part.weight);
        }
        rest &= !(1 << bit);
    }
}

/// Adds a weight to the sums of some items, as far as there are sums.
#[inline]
fn add_weight(sums: &mut [u64], items: &[u32], weight: u64)
    requires rising { IsRising items.now }
    requires light { (item : ℕ) → item < length sums.old → slice_index sums.old item + weight ≤ MOST_WEIGHT }
    ensures { (item : ℕ) → item < length sums.old → slice_index sums.new item ≡ slice_index sums.old item + (if has items.now item then weight else 0) }
{
    for item in items {
        let index = *item as usize;
        if index < sums.len() {
            sums[index] += weight;
        }
    }
}
