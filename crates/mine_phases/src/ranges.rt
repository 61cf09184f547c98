//! The ranks as ranges that take workers about equally long.
ghost use Rattle.std.specs.Prelude.{◌≤◌, ◌^◌, ◌<◌, ◌≡◌, All, IfOk, length};
ghost use Rattle.std.specs.List.{flat_map, range_with_len};
ghost use Rattle.basket_sets.specs.Counts.{AllBelow};
ghost use Rattle.mine_pairs.specs.Triangle.{ranks_in};

use basket_core::{Coded, Weighted};
use mine_pairs::RankRange;
use mine_pieces::Cutting;
use std::alloc::{AllocError, Global};

/// About this many baskets show how many steps each rank takes.
const SAMPLE: usize = 4_096;

/// So often a greater share is tried.
const TRIES: u32 = 64;

/// What takes the time in a range of ranks.
#[derive(Clone, Copy)]
pub enum Cost {
    /// Its ranks in the baskets: a step each.
    Occurrences,
    /// Their pairs with lesser ranks: a step each, and one for the rank. A lesser rank that is in no
    /// pair of the range takes a step too.
    Pairs,
}

/// How many steps a rank takes in a sample.
#[derive(Clone, Copy)]
struct RankSteps {
    /// Those in its range.
    own: u64,
    /// Those in each later range.
    later: u64,
}

/// All ranks as ranges, at most one for each worker, since each range looks at all baskets. They take about
/// equally many steps in a sample.
pub fn ranges_of(
    alloc: Global,
    coded: &Coded,
    cutting: Cutting,
    cost: Cost,
) -> Result<Vec<RankRange>, AllocError>
    ensures ranges { IfOk result (λ ranges. flat_map ranks_in ranges.items ≡ range_with_len 0 (length coded.now.items)) }
    ensures few { IfOk result (λ ranges. length ranges.items < 2 ^ 32) }
{
    let none = RankSteps { own: 0, later: 0 };
    let mut steps = vec![in alloc; none; coded.ranks() as usize]?;
    if cutting.workers > 1 {
        add_sample(&mut steps, coded.baskets(), cost);
    }
    let total = steps
        .iter()
        .fold(0u64, |total, some| total.saturating_add(some.own));
    let mut share = total / u64::from(cutting.workers);
    for _try in 0..TRIES {
        let ranges = cut(alloc, &steps, share)?;
        if ranges.len() <= cutting.workers as usize {
            return Ok(ranges);
        }
        share = share.saturating_add(share / 16 + 1);
    }
    cut(alloc, &steps, share)
}

/// Adds the steps that each rank takes in some of the baskets.
fn add_sample(steps: &mut [RankSteps], baskets: &[Weighted], cost: Cost)
    requires { All (λ basket. AllBelow (length steps.old) basket.basket) baskets.now }
{
    let apart = baskets.len() / SAMPLE + 1;
    for number in 0..SAMPLE {
        if let Some(basket) = baskets.get(number.saturating_mul(apart)) {
            add_basket(steps, basket.basket.items(), cost);
        }
    }
}

/// Adds the steps that each rank of a basket takes in it.
fn add_basket(steps: &mut [RankSteps], ranks: &[u32], cost: Cost)
    requires { AllBelow (length steps.old) ranks.now }
{
    for (index, rank) in ranks.iter().enumerate() {
        let (own, later) = match cost {
            Cost::Occurrences => (1, 0),
            Cost::Pairs => (index as u64 + 1, 1),
        };
        let some = &mut steps[*rank as usize];
        some.own = some.own.saturating_add(own);
        some.later = some.later.saturating_add(later);
    }
}

/// All ranks as ranges. Each except the last takes more than this many steps, and would not
/// without its last rank.
fn cut(alloc: Global, steps: &[RankSteps], share: u64) -> Result<Vec<RankRange>, AllocError>
    requires { length steps.now < 2 ^ 32 }
    ensures ranges { IfOk result (λ ranges. flat_map ranks_in ranges.items ≡ range_with_len 0 (length steps.now)) }
    ensures few { IfOk result (λ ranges. length ranges.items ≤ length steps.now) }
{
    let mut ranges = Vec::new(alloc);
    let mut first = 0;
    let mut sum = 0u64;
    let mut passed = 0u64;
    for (rank, some) in steps.iter().enumerate() {
        sum = sum.saturating_add(some.own);
        passed = passed.saturating_add(some.later);
        if sum > share || rank + 1 == steps.len() {
            let end = rank as u32 + 1;
            ranges.push(RankRange {
                first,
                count: end - first,
            })?;
            first = end;
            sum = passed;
        }
    }
    Ok(ranges)
}
