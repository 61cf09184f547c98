//! The sets that meet a minimum.
ghost use Rattle.std.specs.Prelude.{◌≡◌, [], All, IfOk, filter, map};
ghost use Rattle.basket_parts.specs.Frequent.{HasRisingSet, counted_of, is_frequent_line};
ghost use Rattle.basket_parts.specs.CombinedCounts.{frequent_in, total_in};

use crate::combined::CombinedCounts;
use basket_core::{CountedSets, Frequent, Minimum};
use basket_read::CountedLine;
use std::alloc::{AllocError, Global};

impl CombinedCounts {
    /// The nonempty sets that meet the minimum. The weight of all baskets is the count of the empty
    /// set, or 0 if that isn't there.
    #[tactic(auto, using(crate::proofs::FrequentLemmas::frequent_lines))]
    pub fn frequent(&self, alloc: Global, minimum: Minimum) -> Result<Frequent, AllocError>
        ensures frequent { IfOk result (λ frequent. frequent ≡ record { sets = frequent_in self.now minimum; total = total_in self.now }) }
        ensures rising { All HasRisingSet self.now }
    {
        let lines = self.lines();
        know_rising(lines);
        let total = self.weight();
        let sets = frequent_sets(alloc, lines, &minimum, total)?;
        Ok(Frequent::of_counted(sets, total))
    }
}

/// Whether the line's set has an item, and its count meets the minimum.
pub fn is_frequent(line: &CountedLine, minimum: &Minimum, total: u64) -> bool
    ensures { result ≡ is_frequent_line minimum.now total line.now }
{
    !line.set.is_empty() && minimum.met(line.count, total)
}

fn frequent_sets(
    alloc: Global,
    lines: &[CountedLine],
    minimum: &Minimum,
    total: u64,
) -> Result<CountedSets, AllocError>
    ensures { IfOk result (λ sets. sets ≡ map counted_of (filter (is_frequent_line minimum.now total) lines.now)) }
{
    let mut sets = empty_list(alloc, lines)?;
    for line in lines {
        if is_frequent(line, minimum, total) {
            sets.push(line.set.copied(alloc)?, line.count)?;
        }
    }
    Ok(sets)
}

/// The empty list, for sets of the items that lines have as sets of one item.
fn empty_list(alloc: Global, lines: &[CountedLine]) -> Result<CountedSets, AllocError>
    ensures { IfOk result (λ sets. sets ≡ []) }
{
    let mut items = Vec::new(alloc);
    let mut most = 0;
    for line in lines {
        if let [item] = line.set.items() {
            items.push(*item)?;
            most = line.count.max(most);
        }
    }
    CountedSets::new(alloc, &items, most)
}

/// Does nothing: the items of each set rise, by its type, and this says so of all of them.
#[tactic(auto, using(std::proofs::lemmas::Grind::common_steps, std::proofs::lemmas::List::take_all))]
fn know_rising(lines: &[CountedLine])
    ensures { All HasRisingSet lines.now }
{
    for line in lines {
        let _items = line.set.items();
    }
}
