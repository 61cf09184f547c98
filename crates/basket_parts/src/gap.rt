//! Frequent sets of which a subset is missing, or has a lower count.
ghost use Rattle.std.specs.Prelude.{◌≡◌, ◌<◌, ◌+◌, ◌++◌, IfOk, OnOk, drop, length, take};
ghost use Rattle.basket_parts.specs.Gap.{first_gap, has_gap_below, is_gap};

use crate::combined::CombinedCounts;
use crate::frequent::is_frequent;
use basket_core::Minimum;
use basket_read::{CountedLine, ReadFault};
use std::alloc::{AllocError, Global};

impl CombinedCounts {
    /// The first frequent set with a subset of one item less that is there with a lower count, or
    /// that is not empty and isn't there.
    #[tactic(auto, using(crate::proofs::GapLemmas::found_at, crate::proofs::GapLemmas::first_gap_line))]
    pub fn first_gap(
        &self,
        alloc: Global,
        minimum: Minimum,
    ) -> Result<Option<ReadFault>, AllocError>
        ensures { IfOk result (λ fault. fault ≡ first_gap self.now minimum) }
    {
        let total = self.weight();
        let mut subset = Vec::new(alloc);
        for line in self.lines() {
            if is_frequent(line, &minimum, total) && self.has_gap(line, &mut subset)? {
                return Ok(Some(ReadFault::Subset { line: line.line }));
            }
        }
        Ok(None)
    }

    /// Whether some subset of the line's set with one item less shows a gap. The list is scratch
    /// space.
    #[tactic(auto, using(crate::proofs::GapLemmas::gap_found, crate::proofs::GapLemmas::no_gap))]
    fn has_gap(&self, line: &CountedLine, subset: &mut Vec<u32>) -> Result<bool, AllocError>
        requires { 0 < length line.now.set }
        ensures { IfOk result (λ gap. gap ≡ has_gap_below self.now line.now.count line.now.set) }
    {
        let items = line.set.items();
        for index in 0..items.len() {
            leave_out(items, index, subset)?;
            if is_gap(line.count, subset, self.count_of(subset)) {
                return Ok(true);
            }
        }
        Ok(false)
    }
}

/// Makes `rest` the items without the one at the index. Its capacity is used again.
fn leave_out(items: &[u32], index: usize, rest: &mut Vec<u32>) -> Result<(), AllocError>
    requires { index < length items.now }
    ensures { OnOk result (rest.new.items ≡ take index items.now ++ drop (index + 1) items.now) }
{
    rest.clear();
    rest.extend_from_slice(&items[..index])?;
    rest.extend_from_slice(&items[index + 1..])?;
    Ok(())
}

/// Whether a subset with this count, if it is there, shows a gap below the count.
fn is_gap(count: u64, subset: &[u32], found: Option<u64>) -> bool
    ensures { result ≡ is_gap count subset.now found }
{
    match found {
        Some(lower) => lower < count,
        None => !subset.is_empty(),
    }
}
