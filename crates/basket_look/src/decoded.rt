//! A file whose text is known.
use crate::file::{File, Nothing, Style};
use crate::foreign::{Foreign, Remedy};
use crate::json::say_json;
use crate::lines::{LineEnds, NumberLines, lines};
use crate::numbers::{is_read, number_readings};
use crate::quotes::long_quote;
use crate::rules::read_by_rules;
use crate::said::Said;
use crate::sample::Sample;
use crate::separating::fields_of;
use crate::settled::settled;
use crate::table::{Table, records_of};
use crate::text::say_text;
use crate::view::View;
use basket_pairs::{Encoding, Fields};
use std::alloc::{AllocError, Global};

const FEW_LINES: &str = "too short to tell what it is";

const BY_HAND: Remedy = Remedy::Say(
    "Say it yourself: --form, --sep and --header, as `basket sets --help` has them.",
);

const WEIGHTS: &str = "FIMI text with weights, which has to be written in another way";

const TO_LINE_FEEDS: Remedy = Remedy::Say(
    "Bring it to UTF-8 and line feeds first, as iconv and tr '\\r' '\\n' do.",
);

/// How many bytes of lines of numbers make the sample. Short lines make many baskets.
const MOST_SAMPLED: usize = 1 << 17;

/// The first lines of a text.
fn beginning(text: &str) -> &str {
    let front = text
        .get(..text.floor_char_boundary(MOST_SAMPLED))
        .unwrap_or(text);
    match front.rsplit_once('\n') {
        Some((lines, _)) if front.len() < text.len() => lines,
        _ => text,
    }
}

/// The line of a quote that opens and is closed lines later or never.
fn open_quote(text: &str, fields: &Fields) -> Option<u32> {
    match fields {
        Fields::Separated(separator) => long_quote(text, char::from(*separator)),
        _ => None,
    }
}

/// A file whose text is known.
#[derive(Drop)]
pub struct Decoded<'a> {
    pub alloc: Global,
    pub file: File<'a>,
    pub text: String,
    pub encoding: Encoding,
    pub style: Style,
}

impl Decoded<'_> {
    /// Says what it is.
    pub fn say(&self, said: &mut Said) -> Result<(), AllocError> {
        let lines = lines(self.alloc, self.text.as_str())?;
        let numbers = NumberLines::of(&lines);
        if let Some(kind) = Foreign::of_lines(&lines) {
            return self.file.say_foreign(self.alloc, said, self.style, kind);
        }
        if lines.is_empty() {
            let nothing = Nothing::new(
                "empty",
                "blank lines alone: it has no basket",
                Remedy::Say(""),
            );
            return self.file.say_nothing(self.alloc, said, self.style, nothing);
        }
        if numbers.are_counts() || numbers.are_baskets() {
            return self.say_numbers(said, &lines, &numbers);
        }
        if lines.len() < 3 {
            let nothing = Nothing::new("short", FEW_LINES, BY_HAND);
            return self.file.say_nothing(self.alloc, said, self.style, nothing);
        }
        self.say_table(said, &lines)
    }

    /// Says what a text of lines of numbers is.
    fn say_numbers(
        &self,
        said: &mut Said,
        lines: &[&str],
        numbers: &NumberLines<'_>,
    ) -> Result<(), AllocError> {
        let alloc = self.alloc;
        let ends = LineEnds::of(self.text.as_str());
        if numbers.weighted > 0 && !is_read(self.encoding, ends) {
            let nothing = Nothing::new("weights", WEIGHTS, TO_LINE_FEEDS);
            return self.file.say_nothing(alloc, said, self.style, nothing);
        }
        let readings = number_readings(alloc, lines, numbers, self.encoding, ends)?;
        let sample = match readings.first() {
            Some(first) if numbers.weighted == 0 && numbers.counted == 0 => {
                Sample::of(alloc, beginning(self.text.as_str()), &first.recipe)?
            }
            _ => Sample::empty(alloc),
        };
        self.say_view(
            said,
            View {
                file: self.file,
                encoding: self.encoding,
                ends,
                kind: if numbers.are_counts() {
                    "counts"
                } else {
                    "fimi"
                },
                records: lines.len(),
                table: None,
                readings,
                sample,
            },
        )
    }

    /// Says what a text of records is.
    fn say_table(&self, said: &mut Said, lines: &[&str]) -> Result<(), AllocError> {
        let (alloc, text) = (self.alloc, self.text.as_str());
        let fields = fields_of(alloc, lines)?;
        let opened = open_quote(text, &fields);
        let records = records_of(alloc, text, &fields)?;
        let table = Table::of(alloc, fields, &records)?;
        let Some((rule, mut reading)) = read_by_rules(&table, self.encoding)? else {
            let what = "a table in which no column looks like baskets and none like items";
            let nothing = Nothing::new("unclear", what, BY_HAND);
            return self.file.say_nothing(alloc, said, self.style, nothing);
        };
        if let Some(line) = opened {
            write!(
                reading.doubts,
                "The quote that opens on line {line} is closed lines later or never: all between is one field.\n"
            );
        }
        let sample = Sample::of(alloc, text, &reading.recipe)?;
        sample.doubt(&mut reading.doubts)?;
        let readings = settled(&table, reading, lines)?;
        self.say_view(
            said,
            View {
                file: self.file,
                encoding: self.encoding,
                ends: LineEnds::of(text),
                kind: rule.name(),
                records: records.len(),
                table: Some(table),
                readings,
                sample,
            },
        )
    }

    fn say_view(&self, said: &mut Said, view: View<'_, '_>) -> Result<(), AllocError> {
        match self.style {
            Style::Text => say_text(self.alloc, said, &view, self.text.as_str()),
            Style::Json => say_json(self.alloc, said, &view),
        }
    }
}
