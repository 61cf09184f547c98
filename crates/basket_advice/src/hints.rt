use std::alloc::{AllocError, Global};

/// Lines of advice.
#[derive(Debug, Drop)]
pub struct Hints {
    text: String,
}

impl Hints {
    pub fn new(alloc: Global) -> Self {
        Hints {
            text: String::new(alloc),
        }
    }

    /// Adds a line, if there is something on it.
    pub fn add(&mut self, line: &str) -> Result<(), AllocError> {
        if line.is_empty() {
            return Ok(());
        }
        write!(self.text, "hint: {line}\n")
    }

    pub fn into_text(self) -> String {
        self.text
    }
}
