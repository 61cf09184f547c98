//! Codes of values, record by record: which determines which.
use indexmap::IndexSet;
use std::alloc::{AllocError, Global};
use std::hash::{BuildHasherDefault, FoldHasher};

/// Whether a key determines the other: whether at least 98 of 100 records have the other value that
/// the first record with their key has.
pub fn determines(alloc: Global, keys: &[u32], others: &[u32]) -> Result<bool, AllocError> {
    let mut first: Vec<Option<u32>> = Vec::new(alloc);
    let mut agree: usize = 0;
    for (key, other) in keys.iter().zip(others) {
        let place = *key as usize;
        for _ in first.len()..=place {
            first.push(None)?;
        }
        if let Some(seen) = first.get_mut(place) {
            match *seen {
                None => *seen = Some(*other),
                Some(value) if value != *other => continue,
                Some(_) => (),
            }
        }
        agree = agree.saturating_add(1);
    }
    Ok(agree >= keys.len().saturating_sub(keys.len() / 50))
}

/// The codes of two keys together.
pub fn joined(alloc: Global, keys: &[u32], others: &[u32]) -> Result<Vec<u32>, AllocError> {
    let mut both: IndexSet<(u32, u32), BuildHasherDefault<FoldHasher>> = IndexSet::with_hasher(
        alloc,
        BuildHasherDefault::new(),
    );
    let mut codes = Vec::new(alloc);
    for (key, other) in keys.iter().zip(others) {
        let (index, _) = both.insert_full((*key, *other))?;
        codes.push(u32::try_from(index).unwrap_or(u32::MAX))?;
    }
    Ok(codes)
}

/// How many codes differ. Codes count from 0 in the order of their first records.
pub fn different(codes: &[u32]) -> usize {
    let mut most: Option<u32> = None;
    for code in codes {
        most = most.max(Some(*code));
    }
    most.map_or(0, |code| (code as usize).saturating_add(1))
}

/// How many codes are not equal to the one before.
pub fn runs(codes: &[u32]) -> usize {
    let mut before = None;
    let mut count: usize = 0;
    for code in codes {
        if before != Some(*code) {
            count = count.saturating_add(1);
        }
        before = Some(*code);
    }
    count
}
