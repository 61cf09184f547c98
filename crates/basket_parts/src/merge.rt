//! Merges lines that have one set.
ghost use Rattle.std.specs.Prelude.{◌≡◌, ◌≢◌, All, IfErr, IfOk, OnOk, true};
ghost use Rattle.std.specs.List.{list_any};
ghost use Rattle.std.specs.List.Sorted.{IsSortedByKey, IsStableByKey};
ghost use Rattle.basket_parts.specs.CombinedCounts.{is_heavy};
ghost use Rattle.basket_parts.specs.Merge.{IsLight, merged};
ghost use Rattle.basket_sets.specs.Order.{report_order};

use basket_read::{CountedLine, ReadFault};
use basket_sets::Database;
use std::alloc::{AllocError, Global};
use std::mem;

/// Puts the lines in the report order of their sets. Lines that have one set stay in their order.
pub fn sort_by_set(lines: &mut Vec<CountedLine>) -> Result<(), AllocError>
    ensures sorted { OnOk result (IsSortedByKey (λ line. line.set) report_order lines.new.items) }
    ensures stable { IsStableByKey (λ line. line.set) report_order lines.old.items lines.new.items }
{
    lines.sort_by(|line, other| line.set.cmp(&other.set))
}

/// Merges neighbouring lines that have one set: the first stays, with the sum of their counts.
#[tactic(auto, using(crate::proofs::StableLemmas::heavy_first, crate::proofs::StableLemmas::heavy_after, crate::proofs::StableLemmas::heavy_sum, crate::proofs::StableLemmas::heavy_line))]
pub fn merged(alloc: Global, lines: Vec<CountedLine>) -> Result<Vec<CountedLine>, ReadFault>
    ensures ok { IfOk result (λ list. list.items ≡ merged lines.items) }
    ensures light { IfOk result (λ list. All IsLight list.items) }
    ensures heavy { IfErr result (λ fault. fault ≢ ReadFault.Memory → (fault ≡ ReadFault.Heavy) × (list_any is_heavy (merged lines.items) ≡ true)) }
{
    let mut list = Vec::new(alloc);
    let mut lines = lines.into_iter();
    let Some(mut kept) = lines.next() else {
        return Ok(list);
    };
    if kept.count > Database::MAX_WEIGHT {
        return Err(ReadFault::Heavy);
    }
    for line in lines {
        if line.set == kept.set {
            if line.count > Database::MAX_WEIGHT - kept.count {
                return Err(ReadFault::Heavy);
            }
            kept.count += line.count;
        } else {
            if line.count > Database::MAX_WEIGHT {
                return Err(ReadFault::Heavy);
            }
            list.push(mem::replace(&mut kept, line))?;
        }
    }
    list.push(kept)?;
    Ok(list)
}
