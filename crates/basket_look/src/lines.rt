//! Lines, what ends them, and what those of numbers say.
use std::alloc::{AllocError, Global};

/// The lines of a text that are not blank, whatever ends them.
pub fn lines(alloc: Global, text: &str) -> Result<Vec<&str>, AllocError> {
    let mut lines = Vec::new(alloc);
    for line in text.split(['\n', '\r']) {
        if !line.trim().is_empty() {
            lines.push(line)?;
        }
    }
    Ok(lines)
}

/// What ends the lines of a text.
#[derive(Clone, Copy, PartialEq, Eq)]
pub enum LineEnds {
    Feeds,
    /// A carriage return and a line feed.
    Pairs,
    Returns,
    Mixed,
}

impl LineEnds {
    pub fn of(text: &str) -> Self {
        let feeds = text.matches('\n').count();
        let pairs = text.matches("\r\n").count();
        match text.contains('\r') {
            false => LineEnds::Feeds,
            true if feeds == 0 => LineEnds::Returns,
            true if pairs == feeds => LineEnds::Pairs,
            true => LineEnds::Mixed,
        }
    }

    pub fn name(self) -> &'static str {
        match self {
            LineEnds::Feeds => "lines end in a line feed",
            LineEnds::Pairs => "lines end in CR and LF, as on Windows",
            LineEnds::Returns => "lines end in a carriage return alone",
            LineEnds::Mixed => "lines end in several ways",
        }
    }
}

/// What a line of numbers says.
enum LineKind {
    Basket,
    WeightedBasket,
    CountedSet,
    Other,
}

impl LineKind {
    fn of(line: &str) -> Self {
        let line = line.trim();
        match (line.split_once('('), line.split_once('x')) {
            (Some((set, count)), _) if are_numbers(set) && is_last_number(count) => {
                LineKind::CountedSet
            }
            (None, Some((weight, rest))) if is_number(weight) && are_numbers(rest) => {
                LineKind::WeightedBasket
            }
            (None, None) if are_numbers(line) => LineKind::Basket,
            _ => LineKind::Other,
        }
    }
}

/// Whether a text is a number with a parenthesis behind it.
fn is_last_number(text: &str) -> bool {
    is_number(text.strip_suffix(')').unwrap_or(""))
}

/// Whether a text is a number of the size that items, weights and counts have.
pub fn is_number(text: &str) -> bool {
    for byte in text.bytes() {
        if !byte.is_ascii_digit() {
            return false;
        }
    }
    !text.is_empty() && text.len() <= 13
}

/// Whether a text has numbers alone, with blanks between them.
fn are_numbers(text: &str) -> bool {
    for word in text.split_ascii_whitespace() {
        if !is_number(word) {
            return false;
        }
    }
    true
}

/// How many lines of a text are of which kind.
#[derive(Clone, Copy)]
pub struct NumberLines<'a> {
    pub baskets: usize,
    pub weighted: usize,
    pub counted: usize,
    pub others: usize,
    /// The first line that is no line of numbers.
    pub first_other: Option<&'a str>,
}

impl<'a> NumberLines<'a> {
    pub fn of(lines: &[&'a str]) -> Self {
        let (mut baskets, mut weighted): (usize, usize) = (0, 0);
        let (mut counted, mut others): (usize, usize) = (0, 0);
        let mut first_other = None;
        for line in lines {
            match LineKind::of(line) {
                LineKind::Basket => baskets = baskets.saturating_add(1),
                LineKind::WeightedBasket => weighted = weighted.saturating_add(1),
                LineKind::CountedSet => counted = counted.saturating_add(1),
                LineKind::Other => {
                    others = others.saturating_add(1);
                    first_other = first_other.or(Some(*line));
                }
            }
        }
        NumberLines {
            baskets,
            weighted,
            counted,
            others,
            first_other,
        }
    }

    /// Whether most lines are FIMI text.
    pub fn are_baskets(&self) -> bool {
        let baskets = self.baskets.saturating_add(self.weighted);
        baskets / 4 > self.others || self.others == 0 && baskets > 0 && self.counted == 0
    }

    /// Whether all lines are sets with counts.
    pub fn are_counts(&self) -> bool {
        self.counted > 0 && self.others == 0 && self.weighted == 0 && self.baskets == 0
    }
}
