ghost use Rattle.std.specs.Prelude.{◌≡◌};
ghost use Rattle.basket_sets.specs.Order as order;

use crate::itemset::Itemset;
use std::cmp::Ordering;

/// Smaller sets first, sets of one size lexicographically by item number.
pub fn report_order(a: &Itemset, b: &Itemset) -> Ordering
    ensures { result ≡ order.report_order a.now b.now }
{
    a.cmp(b)
}
