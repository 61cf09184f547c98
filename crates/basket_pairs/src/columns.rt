//! Columns and places, as words name them. A function returns none for a mistake.
use crate::recipe::{Key, Span};
use std::alloc::{AllocError, Global};

/// A number of a column, from 1 on.
fn column(text: &str) -> Option<usize> {
    match text.parse::<u32>() {
        Ok(number) if number > 0 => usize::try_from(number).ok(),
        _ => None,
    }
}

/// Places in a line, each after the one before.
pub fn places(alloc: Global, value: &str) -> Result<Option<Vec<usize>>, AllocError> {
    let mut places = Vec::new(alloc);
    let mut before = 0;
    for part in value.split(',') {
        match column(part) {
            Some(place) if place > before => {
                places.push(place)?;
                before = place;
            }
            _ => return Ok(None),
        }
    }
    Ok(Some(places))
}

/// The columns of a basket's id.
pub fn keys(alloc: Global, value: &str) -> Result<Option<Vec<Key>>, AllocError> {
    let mut keys = Vec::new(alloc);
    for part in value.split(',') {
        let (number, is_day) = match part.strip_suffix(":day") {
            Some(number) => (number, true),
            None => (part, false),
        };
        match column(number) {
            Some(column) => keys.push(Key { column, is_day })?,
            None => return Ok(None),
        }
    }
    Ok(Some(keys))
}

/// The columns of items.
pub fn spans(alloc: Global, value: &str) -> Result<Option<Vec<Span>>, AllocError> {
    let mut spans = Vec::new(alloc);
    for part in value.split(',') {
        let span = match part.split_once('-') {
            None => column(part).map(Span::one),
            Some((first, "")) => column(first).map(Span::from),
            Some((first, last)) => match (column(first), column(last)) {
                (Some(first), Some(last)) if first <= last => Some(Span {
                    first,
                    last: Some(last),
                }),
                _ => None,
            },
        };
        match span {
            Some(span) => spans.push(span)?,
            None => return Ok(None),
        }
    }
    Ok(Some(spans))
}
