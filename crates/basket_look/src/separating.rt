//! What separates the fields of a text.
use basket_pairs::Fields;
use std::alloc::{AllocError, Global};

/// The separators of CSV, the rarest in names first.
const SEPARATORS: [char; 4] = ['\t', ';', '|', ','];

/// How many lines decide.
const MOST_LINES: usize = 400;

/// What most likely separates the fields of lines.
pub fn fields_of(alloc: Global, lines: &[&str]) -> Result<Fields, AllocError> {
    let lines = lines.get(..lines.len().min(MOST_LINES)).unwrap_or(&[]);
    if are_lists(lines) {
        // Each line is one field.
        return Ok(Fields::Columns(vec![in alloc; 1]?));
    }
    if let Some(starts) = ruled_columns(alloc, lines)? {
        return Ok(Fields::Columns(starts));
    }
    if let Some(separator) = even_separator(alloc, lines)? {
        return Ok(Fields::Separated(u8::try_from(separator).unwrap_or(b',')));
    }
    if let Some(separator) = most_frequent(lines) {
        return Ok(Fields::Separated(u8::try_from(separator).unwrap_or(b',')));
    }
    if let Some(starts) = aligned_columns(alloc, lines)? {
        return Ok(Fields::Columns(starts));
    }
    let blanks = lines
        .iter()
        .filter(|line| line.trim().contains(' '))
        .count();
    Ok(match blanks > lines.len() / 2 {
        true => Fields::Blanks,
        false => Fields::Separated(b','),
    })
}

/// Whether nearly all lines are lists in brackets, as `{bread,milk}`.
fn are_lists(lines: &[&str]) -> bool {
    let lists = lines.iter().filter(|line| {
        let line = line.trim();
        line.starts_with(['{', '[']) && line.ends_with(['}', ']'])
    });
    lists.count() > lines.len() / 20 * 19
}

/// The separator that stands equally often on most lines, outside of quotes.
fn even_separator(alloc: Global, lines: &[&str]) -> Result<Option<char>, AllocError> {
    let (mut best, mut most) = (None, lines.len() / 10 * 7);
    for separator in SEPARATORS {
        let mut counts = Vec::new(alloc);
        for line in lines {
            counts.push(count_outside(line, separator))?;
        }
        counts.sort_unstable();
        for same in counts.chunk_by(|one, other| one == other) {
            // A later one has to be on more lines by a fiftieth.
            if same.first() != Some(&0) && same.len() > most.saturating_add(lines.len() / 50) {
                (best, most) = (Some(separator), same.len());
            }
        }
    }
    Ok(best)
}

/// How often a letter stands on a line outside of quotes.
fn count_outside(line: &str, separator: char) -> usize {
    let (mut count, mut is_quoted): (usize, bool) = (0, false);
    for letter in line.chars() {
        if letter == '"' {
            is_quoted = !is_quoted;
        } else if letter == separator && !is_quoted {
            count = count.saturating_add(1);
        }
    }
    count
}

/// The separator that is on the most lines, if it is on a quarter of them.
fn most_frequent(lines: &[&str]) -> Option<char> {
    let (mut best, mut most) = (None, lines.len() / 4);
    for separator in SEPARATORS {
        let count = lines
            .iter()
            .filter(|line| count_outside(*line, separator) > 0)
            .count();
        if count > most {
            (best, most) = (Some(separator), count);
        }
    }
    best
}

/// Where the columns begin of which a line of dashes shows the widths, as `sqlcmd` writes it.
fn ruled_columns(alloc: Global, lines: &[&str]) -> Result<Option<Vec<usize>>, AllocError> {
    for line in lines.iter().take(5) {
        let is_rule = line.chars().all(|letter| matches!(letter, '-' | ' '));
        if is_rule && line.trim().contains(' ') {
            let starts = starts_of_words(alloc, line, 1)?;
            return Ok((starts.len() > 1).then_some(starts));
        }
    }
    Ok(None)
}

/// Where the words of a line begin that have so many blanks before them, counted from 1.
fn starts_of_words(alloc: Global, line: &str, least: usize) -> Result<Vec<usize>, AllocError> {
    let mut starts = Vec::new(alloc);
    let (mut place, mut blanks): (usize, usize) = (0, least);
    for letter in line.chars() {
        place = place.saturating_add(1);
        if letter.is_whitespace() {
            blanks = blanks.saturating_add(1);
        } else {
            if blanks >= least {
                starts.push(place)?;
            }
            blanks = 0;
        }
    }
    Ok(starts)
}

/// Where the columns of a table begin whose fields stand below one another: where the first line has
/// words, and nearly all lines a blank before them.
fn aligned_columns(alloc: Global, lines: &[&str]) -> Result<Option<Vec<usize>>, AllocError> {
    let [first, rest @ ..] = lines else {
        return Ok(None);
    };
    let gaps = rest
        .iter()
        .filter(|line| line.trim().contains("  "))
        .count();
    if rest.len() < 2 || gaps < rest.len() / 5 * 4 {
        return Ok(None);
    }
    let mut starts = Vec::new(alloc);
    for start in starts_of_words(alloc, first, 1)? {
        let before = start.saturating_sub(2);
        let open = rest
            .iter()
            .filter(|line| is_blank_at(*line, before))
            .count();
        if start == 1 || open >= rest.len().saturating_sub(rest.len() / 50) {
            starts.push(start)?;
        }
    }
    Ok((starts.len() > 1).then_some(starts))
}

/// Whether a line has a blank or nothing at a place, counted from 0.
fn is_blank_at(line: &str, place: usize) -> bool {
    line.chars()
        .nth(place)
        .is_none_or(|letter| letter.is_whitespace())
}
