//! Quotes that are left open.

/// Where the scan of a text stands.
#[derive(Clone, Copy)]
enum Place {
    FieldStart,
    Plain,
    Quoted,
    /// After a quote in a quoted field, which ends the field or stands for a quote.
    Quote,
}

impl Place {
    fn after(self, letter: char, separator: char) -> Self {
        let ends = letter == separator || letter == '\n' || letter == '\r';
        match self {
            Place::FieldStart if letter == '"' => Place::Quoted,
            Place::Quoted if letter == '"' => Place::Quote,
            Place::Quoted => Place::Quoted,
            Place::Quote if letter == '"' => Place::Quoted,
            _ if ends => Place::FieldStart,
            _ => Place::Plain,
        }
    }
}

/// A field in quotes with so many line ends in it is likely one whose quote should not be there.
const MOST_LINES: u32 = 3;

/// The number of the first line on which a quote opens that is closed only lines later, or never.
pub fn long_quote(text: &str, separator: char) -> Option<u32> {
    let mut place = Place::FieldStart;
    let mut line: u32 = 1;
    let mut opened: u32 = 1;
    for letter in text.chars() {
        place = place.after(letter, separator);
        if letter == '\n' {
            line = line.saturating_add(1);
        }
        if !matches!(place, Place::Quoted) {
            opened = line;
        }
        if line.saturating_sub(opened) > MOST_LINES {
            return Some(opened);
        }
    }
    matches!(place, Place::Quoted).then_some(opened)
}
