//! The order of a list of items and one that comes in two parts.
ghost use Rattle.std.specs.Prelude.{◌≡◌, ◌++◌};
ghost use Rattle.std.specs.Cmp.Lexicographic.{slice_cmp};
ghost use Rattle.std.specs.Ordering.{nat_cmp};

use std::cmp::Ordering;

/// Compares a list of items with the items of `front` and then those of `rest`, which need not be
/// copied into one list.
pub fn compare_parts(items: &[u32], front: &[u32], rest: &[u32]) -> Ordering
    ensures { result ≡ slice_cmp nat_cmp items.now (front.now ++ rest.now) }
{
    let (start, end) = items.split_at(front.len().min(items.len()));
    start.cmp(&front).then_with(|| end.cmp(&rest))
}
