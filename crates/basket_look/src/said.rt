//! What is said of a file.
use std::alloc::{AllocError, Global};
use std::fmt::Display;

/// How many characters of a part of a file are shown.
const MOST_LETTERS: usize = 30;

/// What is said of a file. Where memory ran out there is none in the end, so that what is said
/// need not look after each part.
#[derive(Drop)]
pub struct Said {
    text: String,
    is_out_of_memory: bool,
}

impl Said {
    pub fn new(alloc: Global) -> Self {
        Said {
            text: String::new(alloc),
            is_out_of_memory: false,
        }
    }

    /// Adds a text.
    pub fn push_str(&mut self, text: &str) {
        if self.text.push_str(text).is_err() {
            self.is_out_of_memory = true;
        }
    }

    /// Adds what `write!` is given.
    pub fn write_fmt<D: Display + Drop>(&mut self, part: D) {
        if write!(self.text, "{part}").is_err() {
            self.is_out_of_memory = true;
        }
    }

    /// Adds a part of the file, which is short then and can't change a terminal.
    pub fn show(&mut self, part: &str) {
        for letter in part.chars().take(MOST_LETTERS) {
            let letter = if letter.is_control() { '?' } else { letter };
            if self.text.push(letter).is_err() {
                self.is_out_of_memory = true;
            }
        }
        if part.chars().count() > MOST_LETTERS {
            self.push_str("..");
        }
    }

    /// Adds what was said elsewhere.
    pub fn push_said(&mut self, other: &Said) {
        self.push_str(other.text.as_str());
        self.is_out_of_memory = self.is_out_of_memory || other.is_out_of_memory;
    }

    /// Adds the lines of another, each behind these words.
    pub fn push_lines(&mut self, words: &str, other: &Said) {
        for line in other.text.as_str().lines() {
            self.push_str(words);
            self.push_str(line);
            self.push_str("\n");
        }
        self.is_out_of_memory = self.is_out_of_memory || other.is_out_of_memory;
    }

    pub fn is_empty(&self) -> bool {
        self.text.is_empty()
    }

    /// Adds a comma before all but the first of several.
    pub fn push_comma(&mut self, place: usize) {
        if place > 0 {
            self.push_str(",");
        }
    }

    /// Adds a text as a string of JSON.
    pub fn quote(&mut self, text: &str) {
        self.push_str("\"");
        for letter in text.chars() {
            match letter {
                '"' => self.push_str("\\\""),
                '\\' => self.push_str("\\\\"),
                letter if letter.is_control() => {
                    let code = u32::from(letter);
                    write!(self, "\\u{code:04x}");
                }
                letter => {
                    if self.text.push(letter).is_err() {
                        self.is_out_of_memory = true;
                    }
                }
            }
        }
        self.push_str("\"");
    }

    /// Adds the lines of another as strings of JSON.
    pub fn quote_lines(&mut self, other: &Said) {
        for (place, line) in other.text.as_str().lines().enumerate() {
            self.push_comma(place);
            self.quote(line);
        }
        self.is_out_of_memory = self.is_out_of_memory || other.is_out_of_memory;
    }

    /// All that was said.
    pub fn into_text(self) -> Result<String, AllocError> {
        match self {
            Said {
                text,
                is_out_of_memory: false,
            } => Ok(text),
            _ => Err(AllocError),
        }
    }
}
