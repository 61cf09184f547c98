//! A minimum to begin with.
use crate::sample::Sample;
use std::alloc::{AllocError, Global};

/// About how many sets meet it.
const SETS: usize = 150;

/// How many of the most frequent items are counted two by two.
const MOST_ITEMS: usize = 64;

/// The most items of a basket that are counted two by two and three by three.
const MOST_TOGETHER: usize = 20;

/// Shares that a person would choose, as a divisor and a text.
const SHARES: [(u64, &str); 16] = [
    (2, "50%"),
    (3, "33%"),
    (4, "25%"),
    (5, "20%"),
    (10, "10%"),
    (20, "5%"),
    (34, "3%"),
    (50, "2%"),
    (100, "1%"),
    (200, "1/200"),
    (500, "1/500"),
    (1_000, "1/1000"),
    (2_000, "1/2000"),
    (5_000, "1/5000"),
    (10_000, "1/10000"),
    (20_000, "1/20000"),
];

/// A share that about as many sets of the sample meet as one likes to look through.
pub fn minimum_of(alloc: Global, sample: &Sample) -> Result<&'static str, AllocError> {
    let mut counts = counts_of(alloc, sample)?;
    counts.sort_unstable();
    let place = counts.len().saturating_sub(SETS);
    let count = counts.get(place).copied().unwrap_or(1).max(2);
    let baskets = sample.baskets.len() as u64;
    let mut best = "50%";
    for (divisor, text) in &SHARES {
        best = *text;
        if count.saturating_mul(*divisor) >= baskets {
            break;
        }
    }
    Ok(best)
}

/// The counts of single items, and of sets of two and three of the most frequent ones.
fn counts_of(alloc: Global, sample: &Sample) -> Result<Vec<u64>, AllocError> {
    let singles = counts_of_items(alloc, sample)?;
    let ranks = ranks_of(alloc, &singles)?;
    let mut together = zeros(alloc, MOST_ITEMS.saturating_mul(MOST_ITEMS))?;
    let mut triples = zeros(alloc, 1 << 15)?;
    for basket in &sample.baskets {
        let mut items = Vec::new(alloc);
        for name in basket {
            match ranks.get(*name as usize) {
                Some(rank) if *rank < MOST_ITEMS && items.len() < MOST_TOGETHER => items.push(
                    *rank,
                )?,
                _ => (),
            }
        }
        items.sort_unstable();
        add_together(&items, &mut together, &mut triples);
    }
    let mut counts = singles;
    for count in together.iter().chain(triples.iter()) {
        if *count > 0 {
            counts.push(*count)?;
        }
    }
    Ok(counts)
}

/// Counts each two and three items of a basket, which rise.
fn add_together(items: &[usize], together: &mut [u64], triples: &mut [u64]) {
    for (first, low) in items.iter().enumerate() {
        for (second, middle) in items.iter().enumerate().skip(first.saturating_add(1)) {
            add_one(
                together,
                low.saturating_mul(MOST_ITEMS).saturating_add(*middle),
            );
            for high in items.iter().skip(second.saturating_add(1)) {
                if *high < 32 {
                    let place = low
                        .saturating_mul(1024)
                        .saturating_add(middle.saturating_mul(32));
                    add_one(triples, place.saturating_add(*high));
                }
            }
        }
    }
}

fn add_one(counts: &mut [u64], place: usize) {
    if let Some(count) = counts.get_mut(place) {
        *count = count.saturating_add(1);
    }
}

fn zeros(alloc: Global, len: usize) -> Result<Vec<u64>, AllocError> {
    vec![in alloc; 0; len]
}

fn counts_of_items(alloc: Global, sample: &Sample) -> Result<Vec<u64>, AllocError> {
    let mut counts = zeros(alloc, sample.names.len())?;
    for basket in &sample.baskets {
        for name in basket {
            add_one(&mut counts, *name as usize);
        }
    }
    Ok(counts)
}

/// The rank of each item, the most frequent first.
fn ranks_of(alloc: Global, counts: &[u64]) -> Result<Vec<usize>, AllocError> {
    let mut order = Vec::new(alloc);
    for (name, count) in counts.iter().enumerate() {
        order.push((u64::MAX - *count, name))?;
    }
    order.sort_unstable();
    let mut ranks = vec![in alloc; 0; counts.len()]?;
    for (rank, (_, name)) in order.iter().enumerate() {
        if let Some(place) = ranks.get_mut(*name) {
            *place = rank;
        }
    }
    Ok(ranks)
}
