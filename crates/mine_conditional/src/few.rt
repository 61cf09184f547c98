//! The conditional database of a rank that at most one lower rank is frequent together with.
ghost use Rattle.std.specs.Prelude.{◌≡◌, ◌≤◌, ◌+◌, ◌++◌, ◌∷◌, [], ℕ, Bool, List, IfOk, OnOk, if◌then◌else◌, length, nat_lt};
ghost use Rattle.basket_sets.specs.Database.{MOST_WEIGHT};
ghost use Rattle.basket_sets.specs.Support.{support_of};
ghost use Rattle.mine_baskets.specs.ListBaskets.{AreRankBaskets, RankBaskets, weight_where};
ghost use Rattle.mine_conditional.specs.Few.{first_support};
ghost use Rattle.mine_conditional.specs.Paths.{IsConditional};
ghost use Rattle.mine_pairs.specs.Pairs.{pairs_of};

use mine_baskets::WordBaskets;
use mine_baskets::words::{Word, bit_of};
use std::alloc::{AllocError, Global};

/// The conditional database of a rank with this support and at most one pair. Its baskets have one
/// rank or none, so their weights are known and no path is looked at.
pub fn below_few(
    alloc: Global,
    support: u64,
    pairs: &[(u32, u64)],
) -> Result<WordBaskets, AllocError>
    requires few { length pairs.now ≤ 1 }
    requires falls { first_support pairs.now ≤ support }
    requires light { support ≤ MOST_WEIGHT }
    ensures { (all : RankBaskets) (least rank : ℕ) → AreRankBaskets all → pairs.now ≡ pairs_of all.baskets least rank → support ≡ support_of all.baskets (rank ∷ [])
        → IfOk result (IsConditional all.baskets least rank) }
{
    let with = first_support(pairs);
    let without = support - with;
    let below = of_one_rank(alloc, pairs.len() as u32, with, without)?;
    Ok(below)
}

/// The support of the first pair, or 0.
fn first_support(pairs: &[(u32, u64)]) -> u64
    ensures { result ≡ first_support pairs.now }
{
    match pairs.first() {
        Some((_, support)) => *support,
        None => 0,
    }
}

/// Baskets of one rank, or of none. The baskets with the rank weigh this much together, and
/// those without it that much.
fn of_one_rank(
    alloc: Global,
    count: u32,
    with: u64,
    without: u64,
) -> Result<WordBaskets, AllocError>
    requires few { count ≤ 1 }
    requires none { count ≡ 0 → with ≡ 0 }
    requires light { with + without ≤ MOST_WEIGHT }
    ensures ranks { IfOk result (λ baskets. baskets.ranks ≡ count) }
    ensures ranked { IfOk result AreRankBaskets }
    ensures weights { IfOk result (λ baskets. (test : List ℕ → Bool) → weight_where test baskets.baskets
        ≡ (if test (0 ∷ []) then with else 0) + (if test [] then without else 0)) }
{
    let mut words = Vec::with_capacity(alloc, 2)?;
    push_weighing(&mut words, 0, without)?;
    push_weighing(&mut words, bit_of(0), with)?;
    Ok(WordBaskets::of_ordered(count, words))
}

/// Adds a word, unless it has no weight.
fn push_weighing(words: &mut Vec<Word>, bits: u64, weight: u64) -> Result<(), AllocError>
    ensures { OnOk result (words.new.items ≡ (if nat_lt 0 weight then words.old.items ++ record { bits = bits; weight = weight } ∷ [] else words.old.items)) }
{
    if weight > 0 {
        words.push(Word { bits, weight })?;
    }
    Ok(())
}
