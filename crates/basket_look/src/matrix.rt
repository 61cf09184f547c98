//! Tables with a column for each item.
use crate::reading::Reading;
use crate::table::Table;
use crate::titles::cell;
use crate::value::{Word, is_day, is_measure, is_number};
use basket_pairs::{Span, is_no};
use csv::StringRecord;
use std::alloc::{AllocError, Global};

/// What the cells of a column say that are not no.
#[derive(Clone, Copy, PartialEq, Eq)]
enum Yes<'a> {
    /// Nothing: all are no.
    Never,
    /// One word or number in all of them.
    One(&'a str),
    /// Numbers, so many of which differ, up to a bound.
    Numbers,
    /// Something else.
    Others,
}

/// How many columns are asked what says yes.
const MOST_TRIED: usize = 20;

/// A column as one of marks: what says yes, in how many records, and by how many values.
#[derive(Clone, Copy)]
pub struct Marks<'a> {
    yes: Yes<'a>,
    noes: usize,
    /// How many of these are blank.
    blanks: usize,
}

impl<'a> Marks<'a> {
    fn add(&mut self, cell: &'a str) {
        if is_no(cell) {
            self.noes = self.noes.saturating_add(1);
            self.blanks = self.blanks.saturating_add(usize::from(cell.is_empty()));
            return;
        }
        self.yes = match self.yes {
            Yes::Never => Yes::One(cell),
            Yes::One(other) if other.eq_ignore_ascii_case(cell) => self.yes,
            Yes::One(other) if is_amount(other) && is_amount(cell) => Yes::Numbers,
            Yes::Numbers if is_amount(cell) => Yes::Numbers,
            _ => Yes::Others,
        };
    }

    /// Whether it says yes and no, or how many.
    fn is_of_marks(&self) -> bool {
        match self.yes {
            Yes::Never => self.blanks < self.noes,
            Yes::One(_) | Yes::Numbers => self.noes > 0,
            Yes::Others => false,
        }
    }
}

/// Whether a cell is a number, a percentage or a price.
fn is_amount(cell: &str) -> bool {
    is_number(cell) || is_measure(cell) && !is_day(cell) && !cell.contains(':')
}

/// What the cells of each column say.
pub fn mark_columns<'a>(
    alloc: Global,
    records: &'a [StringRecord],
    width: usize,
) -> Result<Vec<Marks<'a>>, AllocError> {
    let mut marks = Vec::new(alloc);
    for _ in 0..width {
        marks.push(Marks {
            yes: Yes::Never,
            noes: 0,
            blanks: 0,
        })?;
    }
    for record in records {
        for (place, mark) in marks.iter_mut().enumerate() {
            if mark.yes != Yes::Others {
                mark.add(cell(record, place));
            }
        }
    }
    Ok(marks)
}

/// How many columns are of marks, and of how many it is one word or number that says yes.
fn counts(marks: &[Marks<'_>]) -> (usize, usize) {
    let (mut all, mut single): (usize, usize) = (0, 0);
    for mark in marks {
        if mark.is_of_marks() {
            all = all.saturating_add(1);
            if mark.yes != Yes::Numbers {
                single = single.saturating_add(1);
            }
        }
    }
    (all, single)
}

/// Whether the columns are mostly marks and these are their names.
pub fn is_header_of_marks(header: &StringRecord, marks: &[Marks<'_>]) -> bool {
    let (all, _) = counts(marks);
    let mut named: usize = 0;
    for (place, mark) in marks.iter().enumerate() {
        let name = cell(header, place);
        let is_name = match mark.yes {
            Yes::One(yes) => !yes.eq_ignore_ascii_case(name),
            _ => true,
        };
        if mark.is_of_marks() && is_name && !is_no(name) {
            named = named.saturating_add(1);
        }
    }
    all >= 2 && is_mostly(all, marks.len()) && named.saturating_add(1) >= all
}

/// Whether so many columns of marks are so many that the others are only an id and the like.
fn is_mostly(count: usize, width: usize) -> bool {
    count.saturating_mul(5) >= width.saturating_mul(3) || count.saturating_add(1) == width
}

/// Reads a table with a column for each item, in which a cell says if the basket has it.
pub fn read(table: &Table<'_>, reading: &mut Reading) -> Result<bool, AllocError> {
    let marks = mark_columns(table.alloc, table.body, table.width)?;
    let (all, single) = counts(&marks);
    if !table.is_even || all < 2 || !is_mostly(all, table.width) {
        return Ok(false);
    }
    // Where most columns have one way to say yes, those with another are no items.
    let usual = usual_yes(&marks, single);
    let mut items: usize = 0;
    for (place, mark) in marks.iter().enumerate() {
        let name = table.header.map_or("", |header| cell(header, place));
        if is_item(mark, usual, table.body.len()) && !Word::Total.is_in(name) {
            items = items.saturating_add(1);
            add(&mut reading.recipe.items, place.saturating_add(1))?;
        }
    }
    reading.recipe.are_marks = true;
    write!(
        reading.because,
        "A basket in each record and a column for each of {items} items: a cell is blank, or says yes or no, or how many.\n"
    );
    if table.header.is_none() {
        reading.doubts.push_str(
            "No record names the columns, so an item is called by its column's number.\n",
        );
    }
    Ok(items > 1)
}

/// The word or number that says yes in most of so many columns, if one of the first few does.
fn usual_yes<'a>(marks: &[Marks<'a>], columns: usize) -> Option<&'a str> {
    for mark in marks.iter().take(MOST_TRIED) {
        if let Yes::One(yes) = mark.yes
            && marks
                .iter()
                .filter(|other| is_item(other, Some(yes), 0))
                .count()
                > columns / 5 * 4
        {
            return Some(yes);
        }
    }
    None
}

/// Whether this is what says yes in a column.
fn says(mark: &Marks<'_>, yes: &str) -> bool {
    match mark.yes {
        Yes::One(other) => other.eq_ignore_ascii_case(yes),
        _ => false,
    }
}

/// Whether a column is that of an item, where most say yes by this word, or by numbers.
fn is_item(mark: &Marks<'_>, usual: Option<&str>, len: usize) -> bool {
    match usual {
        Some(yes) => says(mark, yes) || mark.yes == Yes::Never,
        None => mark.is_of_marks() && mark.noes >= len / 20,
    }
}

/// Adds a column to columns side by side.
pub fn add(spans: &mut Vec<Span>, column: usize) -> Result<(), AllocError> {
    match spans.last_mut() {
        Some(span) if span.last == Some(column.saturating_sub(1)) => span.last = Some(column),
        _ => spans.push(Span::one(column))?,
    }
    Ok(())
}
