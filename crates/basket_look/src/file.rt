//! A file that is looked at, and what is said of it.
use crate::decoded::Decoded;
use crate::foreign::{Foreign, Remedy};
use crate::json::say_nothing_in_json;
use crate::letters::{encoding_of, text_of};
use crate::said::Said;
use crate::text::say_nothing_in_text;
use std::alloc::{AllocError, Global};

/// How many bytes of a file are looked at.
pub const MOST_BYTES: usize = 1 << 20;

/// How many of its lines are looked at.
const MOST_LINES: usize = 1 << 16;

/// How many bytes the program reads of a file.
const MOST_MINED: u64 = u32::MAX as u64;

/// The beginning of a file.
#[derive(Clone, Copy)]
pub struct File<'a> {
    /// None for standard input.
    pub name: Option<&'a str>,
    /// Its first bytes, at most `MOST_BYTES`.
    pub bytes: &'a [u8],
    pub is_whole: bool,
    /// How many bytes it has in all, if that is known.
    pub size: Option<u64>,
}

/// For whom is said what a file is.
#[derive(Clone, Copy, PartialEq, Eq)]
pub enum Style {
    /// For people.
    Text,
    /// For programs: an object of JSON.
    Json,
}

/// Why no way is shown to read a file.
#[derive(Clone, Copy)]
pub struct Nothing<'a> {
    /// A word for programs.
    pub kind: &'static str,
    /// What the file is.
    pub what: &'a str,
    pub remedy: Remedy,
}

impl<'a> File<'a> {
    pub fn shown_name(&self) -> &'a str {
        self.name.unwrap_or("standard input")
    }

    /// Whether it is longer than what the program reads.
    pub fn is_too_long(&self) -> bool {
        self.size.is_some_and(|size| size > MOST_MINED)
    }

    /// What is said of it.
    pub fn looked(&self, alloc: Global, style: Style) -> Result<String, AllocError> {
        let mut said = Said::new(alloc);
        if let Some(kind) = Foreign::of_bytes(self.bytes) {
            self.say_foreign(alloc, &mut said, style, kind)?;
        } else if self.bytes.is_empty() {
            let nothing = Nothing::new("empty", "empty: it has no basket", Remedy::Say(""));
            self.say_nothing(alloc, &mut said, style, nothing)?;
        } else {
            match encoding_of(alloc, self.bytes)? {
                Some(encoding) => {
                    let text = text_of(alloc, encoding, self.bytes)?;
                    let (text, is_whole) = first_lines(alloc, text, self.is_whole)?;
                    let decoded = Decoded {
                        alloc,
                        file: File { is_whole, ..*self },
                        text,
                        encoding,
                        style,
                    };
                    decoded.say(&mut said)?;
                }
                None => {
                    let remedy = Remedy::Say("basket reads numbers, or names as CSV.");
                    let nothing = Nothing::new("binary", "no text", remedy);
                    self.say_nothing(alloc, &mut said, style, nothing)?;
                }
            }
        }
        said.into_text()
    }

    pub fn say_nothing(
        &self,
        alloc: Global,
        said: &mut Said,
        style: Style,
        nothing: Nothing<'_>,
    ) -> Result<(), AllocError> {
        match style {
            Style::Text => say_nothing_in_text(alloc, said, self, nothing),
            Style::Json => {
                say_nothing_in_json(said, self, nothing);
                Ok(())
            }
        }
    }

    pub fn say_foreign(
        &self,
        alloc: Global,
        said: &mut Said,
        style: Style,
        kind: &Foreign,
    ) -> Result<(), AllocError> {
        self.say_nothing(alloc, said, style, Nothing::new("foreign", kind.1, kind.2))
    }
}

impl<'a> Nothing<'a> {
    pub fn new(kind: &'static str, what: &'a str, remedy: Remedy) -> Self {
        Nothing { kind, what, remedy }
    }
}

/// The lines of a text that are looked at, and whether these are all.
fn first_lines(alloc: Global, text: String, is_whole: bool) -> Result<(String, bool), AllocError> {
    match front_of(text.as_str(), is_whole) {
        Some(front) => Ok((String::from_str(alloc, front)?, false)),
        None => Ok((text, is_whole)),
    }
}

/// The lines of a text that are looked at, if these are not all. The last one is left out if it may
/// be cut off.
fn front_of(text: &str, is_whole: bool) -> Option<&str> {
    let mut lines: usize = 0;
    for (place, byte) in text.bytes().enumerate() {
        if byte == b'\n' {
            lines = lines.saturating_add(1);
        }
        if lines == MOST_LINES && place.saturating_add(1) < text.len() {
            return text.get(..place);
        }
    }
    match text.rsplit_once(['\n', '\r']) {
        Some((front, _)) if !is_whole => Some(front),
        _ => None,
    }
}
