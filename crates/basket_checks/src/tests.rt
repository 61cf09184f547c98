mod bits;
mod codes;
mod databases;
mod depth;
mod fimi;
mod fraction;
mod itemset;
mod miners;
mod round;
mod rows;
mod seats;
mod shard;
mod stream;

use basket_core::{Itemset, Weighted};
use mine_plain::{NINE_BASKETS, Row, database};
use std::alloc::{AllocError, Global};
use std::fmt::Write;
use std::process::Abort;

/// Asserts that a text is the one that is wanted.
fn assert_text(rt: &impl Abort, found: &str, wanted: &str) {
    assert_eq!(rt; found, wanted);
}

/// Asserts that numbers are those that are wanted.
fn assert_numbers(rt: &impl Abort, found: &[u64], wanted: &[u64]) {
    assert_eq!(rt; found, wanted);
}

/// The baskets as text, each with its weight.
fn text_of(alloc: Global, baskets: &[Weighted]) -> Result<String, AllocError> {
    let mut text = String::new(alloc);
    for basket in baskets {
        write!(text, "{} ({})|", basket.basket, basket.weight)?;
    }
    Ok(text)
}

/// The sets of the numbers.
fn sets_of(alloc: Global, rows: &[&[u32]]) -> Result<Vec<Itemset>, AllocError> {
    let mut sets = Vec::new(alloc);
    for row in rows {
        sets.push(Itemset::from_items(alloc, row)?)?;
    }
    Ok(sets)
}
