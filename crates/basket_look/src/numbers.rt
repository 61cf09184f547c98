//! Texts of numbers: FIMI baskets, counted sets, and what looks like them.
use crate::lines::{LineEnds, NumberLines};
use crate::reading::{Form, Reading};
use basket_pairs::{Encoding, Fields, Key, Recipe, Span};
use std::alloc::{AllocError, Global};

/// How many lines decide.
const MOST_LINES: usize = 5_000;

/// How many numbers stand in a line before its items, and what they are.
#[derive(Clone, Copy, PartialEq, Eq)]
enum Front {
    Nothing,
    /// How many items follow.
    Count,
    /// Its own number.
    Line,
    /// A customer, a transaction, and how many items follow.
    Quest,
    /// One number, and one item behind it.
    Id,
}

/// How lines of numbers are read, the most likely way first.
pub fn number_readings(
    alloc: Global,
    lines: &[&str],
    numbers: &NumberLines<'_>,
    encoding: Encoding,
    ends: LineEnds,
) -> Result<Vec<Reading>, AllocError> {
    let mut readings = Vec::new(alloc);
    if numbers.are_counts() {
        let mut reading = number_reading(alloc, encoding, Form::Counts, Span::from(1))?;
        let count = numbers.counted;
        write!(
            reading.because,
            "Sets with counts in parentheses, as `basket count` writes them: {count} lines.\n"
        );
        readings.push(reading)?;
        return Ok(readings);
    }
    let front = front_of(lines, numbers);
    if front != Front::Nothing {
        readings.push(reading_with(alloc, encoding, front)?)?;
    }
    let mut plain = plain(alloc, numbers, encoding, ends)?;
    if front != Front::Nothing {
        plain
            .doubts
            .push_str("Its first numbers may be no items.\n");
    }
    readings.push(plain)?;
    Ok(readings)
}

fn number_reading(
    alloc: Global,
    encoding: Encoding,
    form: Form,
    items: Span,
) -> Result<Reading, AllocError> {
    let mut recipe = Recipe::new(alloc, encoding, Fields::Blanks);
    recipe.items.push(items)?;
    let mut reading = Reading::new(alloc, recipe);
    reading.form = form;
    Ok(reading)
}

/// Whether the program reads numbers that are written so.
pub fn is_read(encoding: Encoding, ends: LineEnds) -> bool {
    encoding == Encoding::Utf8 && ends != LineEnds::Returns
}

/// As FIMI text, which is recoded if it has to be.
fn plain(
    alloc: Global,
    numbers: &NumberLines<'_>,
    encoding: Encoding,
    ends: LineEnds,
) -> Result<Reading, AllocError> {
    let form = if is_read(encoding, ends) {
        Form::Fimi
    } else {
        Form::Pairs
    };
    let mut reading = number_reading(alloc, encoding, form, Span::from(1))?;
    let (baskets, weighted) = (numbers.baskets, numbers.weighted);
    write!(
        reading.because,
        "FIMI text, a basket of numbers on each line: {baskets} lines"
    );
    if weighted > 0 {
        write!(reading.because, " and {weighted} more with a weight first");
    }
    reading.because.push_str(".\n");
    if let Some(other) = numbers.first_other {
        let count = numbers.others;
        write!(
            reading.doubts,
            "Other lines, which are refused: {count}. The first: "
        );
        reading.doubts.show(other);
        reading.doubts.push_str("\n");
    }
    Ok(reading)
}

fn reading_with(alloc: Global, encoding: Encoding, front: Front) -> Result<Reading, AllocError> {
    let (items, has_id, text) = match front {
        Front::Id => (
            Span::one(2),
            true,
            "Two numbers on each line: a basket's id, which comes again in the lines below it, and an item.\n",
        ),
        Front::Count => (
            Span::from(2),
            false,
            "A basket of numbers on each line: the first counts the others, and is left out.\n",
        ),
        Front::Quest => (
            Span::from(4),
            false,
            "A basket of numbers on each line: the first three are a customer, a transaction and how many follow, and are left out.\n",
        ),
        _ => (
            Span::from(2),
            false,
            "A basket of numbers on each line: the first counts the lines, and is left out.\n",
        ),
    };
    let mut reading = number_reading(alloc, encoding, Form::Pairs, items)?;
    if has_id {
        reading.recipe.basket.push(Key {
            column: 1,
            is_day: false,
        })?;
    }
    reading.because.push_str(text);
    if front == Front::Id {
        reading
            .doubts
            .push_str("Each line may also be a basket of two items.\n");
    }
    Ok(reading)
}

/// What stands before the items in all lines.
fn front_of(lines: &[&str], numbers: &NumberLines<'_>) -> Front {
    let lines = lines.get(..lines.len().min(MOST_LINES)).unwrap_or(lines);
    if lines.len() < 4 || numbers.weighted > 0 || numbers.others > 0 {
        return Front::Nothing;
    }
    for front in [Front::Id, Front::Quest, Front::Count, Front::Line] {
        if has(lines, front) {
            return front;
        }
    }
    Front::Nothing
}

/// Whether all lines have such a front.
fn has(lines: &[&str], front: Front) -> bool {
    let (mut shortest, mut longest) = (usize::MAX, 0);
    let (mut before, mut same, mut falls): (Option<u64>, usize, bool) = (None, 0, false);
    for line in lines {
        let number: Option<u64> = match line.split_ascii_whitespace().next() {
            Some(word) => word.parse().ok(),
            None => None,
        };
        let len = line.split_ascii_whitespace().count();
        shortest = shortest.min(len);
        longest = longest.max(len);
        if !holds(front, line, len, number, before) {
            return false;
        }
        if number == before {
            same = same.saturating_add(1);
        }
        falls = falls || number < before;
        before = number;
    }
    match front {
        Front::Id => !falls && same > lines.len() / 4,
        Front::Line => longest > 1,
        _ => shortest < longest,
    }
}

/// Whether one line is as those with such a front are.
fn holds(front: Front, line: &str, len: usize, number: Option<u64>, before: Option<u64>) -> bool {
    let count = |place: usize| {
        let word = line.split_ascii_whitespace().nth(place);
        word.and_then(|word| word.parse::<usize>().ok())
    };
    match front {
        Front::Nothing => true,
        Front::Id => len == 2,
        Front::Count => count(0) == Some(len.saturating_sub(1)),
        Front::Quest => len > 3 && count(2) == Some(len.saturating_sub(3)),
        Front::Line => match before {
            None => number == Some(0) || number == Some(1),
            Some(before) => number == Some(before.saturating_add(1)),
        },
    }
}
