//! The commands that mine a file.
use crate::reading::{Form, Reading};
use crate::said::Said;
use basket_pairs::Fields;
use std::alloc::{AllocError, Global};

/// The questions that are shown, with their options.
pub const QUESTIONS: [(&str, &str); 2] = [("sets", ""), ("rules", " --conf 1/2")];

/// Says the command that asks a question of a file, or of standard input.
pub fn say_command(
    alloc: Global,
    said: &mut Said,
    reading: &Reading,
    question: (&str, &str),
    minimum: &str,
    name: Option<&str>,
) -> Result<(), AllocError> {
    let (command, more) = question;
    let file = match name {
        Some(name) => format!(in alloc; " {}", shell_word(alloc, name)?.as_str())?,
        None => String::new(alloc),
    };
    if reading.form == Form::Pairs {
        said.push_str("basket pairs");
        for word in &reading.recipe.words(alloc)? {
            said.push_str(" ");
            said.push_str(word.as_str());
        }
        said.push_str(file.as_str());
        said.push_str(" | ");
    }
    write!(said, "basket {command} --min {minimum}{more}");
    for word in &options(alloc, reading)? {
        said.push_str(" ");
        said.push_str(*word);
    }
    if reading.form != Form::Pairs {
        said.push_str(file.as_str());
    }
    Ok(())
}

/// The options by which the program reads a file, or its pairs.
pub fn options(alloc: Global, reading: &Reading) -> Result<Vec<&'static str>, AllocError> {
    let mut words = Vec::new(alloc);
    for word in reading.form.options() {
        words.push(*word)?;
    }
    if !matches!(reading.form, Form::Fimi | Form::Counts | Form::Pairs) {
        match &reading.recipe.fields {
            Fields::Separated(b',') => (),
            fields => {
                words.push("--sep")?;
                words.push(fields.word().unwrap_or("comma"))?;
            }
        }
        if reading.recipe.has_header {
            words.push("--header")?;
        }
    }
    Ok(words)
}

/// The name of a file, as a word of a shell's command line.
pub fn shell_word(alloc: Global, name: &str) -> Result<String, AllocError> {
    let folder = if name.starts_with('-') { "./" } else { "" };
    let quote = if name.bytes().all(is_plain) { "" } else { "'" };
    let name = name.replace(alloc, '\'', "'\\''")?;
    format!(in alloc; "{folder}{quote}{name}{quote}")
}

/// Whether a shell reads a byte of a word as it stands.
fn is_plain(byte: u8) -> bool {
    byte.is_ascii_alphanumeric() || !byte.is_ascii() || b"_-./+:,@%=".contains(&byte)
}
