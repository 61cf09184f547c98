//! Records that are no baskets: titles, remarks, totals.
use crate::value::Word;
use csv::StringRecord;
use std::alloc::{AllocError, Global};

/// How many records above a header there may be.
const MOST_TITLES: usize = 20;

/// How many records below a header are compared with it.
const MOST_BELOW: usize = 40;

/// How many cells of each are compared.
const MOST_CELLS: usize = 60;

/// The cell of a record, counted from 0, without the blanks around it.
pub fn cell(record: &StringRecord, place: usize) -> &str {
    record.get(place).unwrap_or("").trim()
}

/// How many cells of a record are not blank.
pub fn filled(record: &StringRecord) -> usize {
    record
        .iter()
        .filter(|field| !field.trim().is_empty())
        .count()
}

/// Whether all but one of so many records are so.
pub fn are_most<F: Fn(&StringRecord) -> bool>(records: &[StringRecord], of: usize, is_so: F) -> bool
    requires { F.IsAlwaysCallable is_so }
{
    let mut others: usize = 0;
    for record in records {
        if !is_so(record) {
            others = others.saturating_add(1);
        }
    }
    others <= records.len() / of.max(1)
}

/// The number that most records have.
pub fn usual<F: Fn(&StringRecord) -> usize>(
    alloc: Global,
    records: &[StringRecord],
    number: F,
) -> Result<usize, AllocError>
    requires { F.IsAlwaysCallable number }
{
    let mut numbers = Vec::new(alloc);
    for record in records {
        numbers.push(number(record))?;
    }
    numbers.sort_unstable();
    let (mut best, mut most) = (0, 0);
    for same in numbers.chunk_by(|one, other| one == other) {
        if same.len() >= most {
            most = same.len();
            best = same.first().copied().unwrap_or(0);
        }
    }
    Ok(best)
}

/// How many records stand above a header or the first basket.
pub fn titles(alloc: Global, records: &[StringRecord], width: usize) -> Result<usize, AllocError> {
    let remarks = short_records(alloc, records, width)?;
    match records.get(remarks..) {
        Some(rest) => Ok(remarks.saturating_add(lines_above_names(rest, width))),
        None => Ok(remarks),
    }
}

/// How many of the first records are remarks, name the separator for Excel, or have fewer cells than
/// nearly all others.
fn short_records(
    alloc: Global,
    records: &[StringRecord],
    width: usize,
) -> Result<usize, AllocError> {
    let usual = usual(alloc, records, filled)?;
    let is_full = width > 1 && are_most(records, 6, |record| filled(record) >= usual - usual / 5);
    let mut skip: usize = 0;
    for record in records.iter().take(MOST_TITLES.min(records.len() / 2)) {
        let (first, count) = (cell(record, 0), filled(record));
        let is_remark = first.starts_with('#') || first.starts_with("sep=") && count == 1;
        let is_unnamed = first.is_empty() && count.saturating_add(1) == usual;
        let is_short = is_full && count.saturating_mul(10) < usual.saturating_mul(7);
        if !is_remark && (is_unnamed || !is_short) {
            break;
        }
        skip = skip.saturating_add(1);
    }
    Ok(skip)
}

/// How many records of one or two cells stand above the fullest of all, if its cells come nowhere
/// below, as those of a header above a table with many blanks.
fn lines_above_names(records: &[StringRecord], width: usize) -> usize {
    let fullest = records.iter().map(filled).max().unwrap_or(0);
    for (place, record) in records.iter().take(MOST_TITLES).enumerate() {
        let count = filled(record);
        if count == fullest {
            let is_new = width > 3 && are_new(record, records, place);
            return if is_new { place } else { 0 };
        }
        if count > 2 {
            return 0;
        }
    }
    0
}

/// Whether no cell of a record comes in one of those below it.
fn are_new(names: &StringRecord, records: &[StringRecord], place: usize) -> bool {
    for record in records.iter().skip(place).skip(1).take(MOST_BELOW) {
        for name in names.iter().take(MOST_CELLS) {
            if !name.trim().is_empty() && has_cell(record, name.trim()) {
                return false;
            }
        }
    }
    true
}

/// Whether one of the first cells of a record is this.
fn has_cell(record: &StringRecord, name: &str) -> bool {
    record
        .iter()
        .take(MOST_CELLS)
        .any(|field| field.trim() == name)
}

/// The records without one of totals at the end, and whether there is one.
pub fn without_totals(records: &[StringRecord]) -> (&[StringRecord], usize) {
    match records.split_last() {
        Some((last, others)) if records.len() > 3 && is_total(last) => match others.last() {
            Some(before) if is_total(before) => (records, 0),
            _ => (others, 1),
        },
        _ => (records, 0),
    }
}

fn is_total(record: &StringRecord) -> bool {
    record
        .iter()
        .take(4)
        .any(|field| Word::Total.is_in(field.trim()))
}
