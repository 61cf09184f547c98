ghost use Rattle.std.specs.Prelude.{◌≡◌, []};
ghost use Rattle.basket_parts.specs.CombinedCounts.{count_if, combined_of, total_in};
ghost use Rattle.basket_read.specs.Fault.{Returns};
ghost use Rattle.basket_parts.specs.Merge.{IsTogether};
ghost use Rattle.basket_sets.specs.Order.{report_order};

use crate::merge::{merged, sort_by_set};
use basket_read::{CountedLine, ReadFault};
use basket_sets::Itemset;
use std::alloc::Global;
use std::cmp::Ordering;
use std::marker::Model;

/// Counted sets, put together: each set once, in report order.
#[derive(Debug, Drop)]
pub struct CombinedCounts {
    lines: Vec<CountedLine>,
}

impl Model for CombinedCounts {
    ghost use Rattle.std.specs.Prelude.{List};
    ghost use Rattle.basket_read.specs.declared.counted_line.CountedLine.{CountedLine as Line};
    ghost use Rattle.basket_parts.specs.Merge.{IsTogether};

    ghost Value = { List Line };

    ghost view = { λ t. t.lines.items };

    ghost invariant = { λ t. IsTogether t.lines.items };
}

impl CombinedCounts {
    /// Puts the lines together: the counts of one set are added up. They are refused if they add up
    /// to too much.
    #[tactic(auto, using(crate::proofs::StableLemmas::merged_is_together, crate::proofs::StableLemmas::merged_in_order, crate::proofs::StableLemmas::answers_lines, crate::proofs::StableLemmas::answers_heavy))]
    pub fn of(alloc: Global, mut lines: Vec<CountedLine>) -> Result<Self, ReadFault>
        ensures { Returns result (combined_of lines.items) }
    {
        sort_by_set(&mut lines)?;
        match merged(alloc, lines) {
            Ok(lines) => Ok(CombinedCounts { lines }),
            Err(fault) => Err(fault),
        }
    }

    /// The sets with their counts and the numbers of their first lines.
    pub fn lines(&self) -> &[CountedLine]
        ensures lines { result.now ≡ self.now }
        ensures combined { IsTogether self.now }
    {
        &self.lines
    }

    /// The count of the empty set, which is the weight of all baskets, if it is there.
    pub fn total(&self) -> Option<u64>
        ensures { result ≡ count_if self.now [] }
    {
        self.count_of(&[])
    }

    /// The count of the empty set, or 0 if it isn't there.
    #[tactic(auto, using(crate::proofs::SameLemmas::total_or_none))]
    pub(crate) fn weight(&self) -> u64
        ensures { result ≡ total_in self.now }
    {
        self.total().unwrap_or(0)
    }

    /// The count of a set, if it is there. A set whose items don't rise isn't.
    pub fn count_of(&self, set: &[u32]) -> Option<u64>
        ensures { result ≡ count_if self.now set.now }
    {
        match self.lines.binary_search_by(|line| compare(&line.set, set)) {
            Ok(index) => Some(self.lines[index].count),
            Err(_) => None,
        }
    }
}

/// Compares a set with items in report order.
fn compare(set: &Itemset, items: &[u32]) -> Ordering
    ensures { result ≡ report_order set.now items.now }
{
    set.len()
        .cmp(&items.len())
        .then_with(|| set.items().cmp(&items))
}
