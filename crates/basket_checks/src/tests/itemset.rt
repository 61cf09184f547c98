use basket_core::{Itemset, report_order};
use std::alloc::{AllocError, Global};
use std::cmp::Ordering;

/// The order of two sets in a report.
fn order(alloc: Global, a: &[u32], b: &[u32]) -> Result<Ordering, AllocError> {
    let a = Itemset::from_items(alloc, a)?;
    let b = Itemset::from_items(alloc, b)?;
    Ok(report_order(&a, &b))
}

#[test]
fn report_order_goes_by_size_and_then_by_items(rt: HostRuntime) -> Result<(), AllocError> {
    let sets: &[(&[u32], &[u32], Ordering)] = &[
        (&[9], &[1, 2], Ordering::Less),
        (&[2, 10], &[10, 11], Ordering::Less),
        (&[1, 3], &[1, 2], Ordering::Greater),
        (&[1, 2], &[2, 1], Ordering::Equal),
    ];
    for &(a, b, want) in sets {
        assert_eq!(rt; order(rt.alloc(), a, b)?, want, "of {a:?} and {b:?}");
    }
    Ok(())
}
