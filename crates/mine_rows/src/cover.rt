//! Tids that a cover lacks.
ghost use Rattle.std.specs.Prelude.{◌≡◌, IfOk};
ghost use Rattle.std.specs.List.{range_with_len};
ghost use Rattle.basket_sets.specs.Itemset.{IsRising};
ghost use Rattle.mine_rows.specs.Cover.{lacking};

use std::alloc::{AllocError, Global};

/// The tids below a number that are not in a cover.
pub fn missing_tids(alloc: Global, cover: &[u32], count: u32) -> Result<Vec<u32>, AllocError>
    requires { IsRising cover.now }
    ensures { IfOk result (λ tids. tids.items ≡ lacking (range_with_len 0 count) cover.now) }
{
    let missing = (count as usize).saturating_sub(cover.len());
    let mut tids = Vec::with_capacity(alloc, missing)?;
    let mut at = 0;
    for tid in 0..count {
        if at < cover.len() && cover[at] == tid {
            at += 1;
        } else {
            tids.push(tid)?;
        }
    }
    Ok(tids)
}
