//! The words after `basket pairs`.
use crate::columns::{keys, places, spans};
use crate::encoding::Encoding;
use crate::fields::{Fields, separator_of};
use crate::recipe::Recipe;
use std::alloc::{AllocError, Global};

pub const HELP: &str = "\
Writes a table as two columns, a basket's id and an item, which --form single reads.

Usage: basket pairs [OPTIONS] --item <COLUMNS> [FILE]

Arguments:
  [FILE]  The file. Without it, or if it is -, standard input is read

Options:
      --item <COLUMNS>    The columns of items, counted from 1: 3, or 2-, or 2-5,8
      --marks <COLUMNS>   In place of --item: columns that only say if the basket has an item,
                          whose name is in the header
      --basket <COLUMNS>  The columns that together are the basket's id: 1, or 2,1, or 2,1:day,
                          which leaves out the time behind a day. Without it, each record is one
      --fill              A blank id is that of the record above
      --within <S>        What separates several names in a cell: comma, semicolon, pipe, slash,
                          plus, line
      --counts            Leaves out how many there are of a name, as in 2x bread and bread (2)
      --header            The first record has the names of the columns
      --skip <N>          Leaves out so many records at the beginning
      --skip-last <N>     Leaves out so many records at the end
      --sep <S>           What separates the fields: comma, semicolon, tab, pipe, space; a comma if
                          it isn't given
      --columns <PLACES>  In place of --sep: where each field begins in a line, as 1,9,24
      --encoding <E>      utf-8, utf-16le, utf-16be, windows-1252, cp850, macintosh;
                          UTF-8 if it isn't given
  -h, --help              Print help

Blank lines, lines of dashes and repeated headers are no records. A cell that is blank, NULL, \\N,
None or nan is no item; a mark is none if it says no or is not above 0. The whole file is kept in
memory.

Example:
  printf 'no,tea,jam\\n1,x,\\n2,x,x\\n' | basket pairs --header --basket 1 --marks 2-
";

/// What is asked of `pairs`.
#[derive(Drop)]
pub enum Pairs<'a> {
    Help,
    /// To write the pairs of a file, or of standard input.
    Write(Recipe, Option<&'a str>),
    /// Nothing, for a mistake that this text explains.
    Mistake(String),
}

/// What words ask for, up to a mistake.
#[derive(Drop)]
struct Asked<'a> {
    recipe: Recipe,
    file: Option<&'a str>,
    has_file: bool,
}

/// What the words after `pairs` ask for.
pub fn pairs_asked<'a>(alloc: Global, words: &[&'a str]) -> Result<Pairs<'a>, AllocError> {
    for word in words {
        if matches!(*word, "--help" | "-h") {
            return Ok(Pairs::Help);
        }
    }
    let mut asked = Asked {
        recipe: Recipe::new(alloc, Encoding::Utf8, Fields::Separated(b',')),
        file: None,
        has_file: false,
    };
    let mut words = words.iter();
    for _ in 0..usize::MAX {
        let Some(word) = words.next() else { break };
        let (option, value) = match word.split_once('=') {
            Some((option, value)) if word.starts_with("--") => (option, Some(value)),
            _ => (*word, None),
        };
        let value = match value {
            None if takes_value(option) => words.next().copied(),
            value => value,
        };
        if !asked.take(alloc, option, value)? {
            return mistake(alloc, option, value);
        }
    }
    if asked.recipe.items.is_empty() {
        return Ok(Pairs::Mistake(String::from_str(alloc, NO_ITEM)?));
    }
    let Asked { recipe, file, .. } = asked;
    Ok(Pairs::Write(recipe, file))
}

const NO_ITEM: &str = "error: --item or --marks says which columns have the items\n\n\
For more information, try 'basket pairs --help'.\n";

fn mistake<'a>(alloc: Global, option: &str, value: Option<&str>) -> Result<Pairs<'a>, AllocError> {
    let is_known = takes_value(option) || FLAGS.contains(&option);
    let what = match value {
        Some(value) if is_known => format!(in alloc; "invalid value '{value}' for '{option}'")?,
        None if is_known => format!(in alloc; "a value is required for '{option}'")?,
        _ => format!(in alloc; "unexpected argument '{option}' found")?,
    };
    Ok(Pairs::Mistake(format!(in alloc;
        "error: {what}\n\nFor more information, try 'basket pairs --help'.\n"
    )?))
}

/// Options with a value, and without one.
const VALUED: [&str; 9] = [
    "--item",
    "--marks",
    "--basket",
    "--within",
    "--skip",
    "--skip-last",
    "--sep",
    "--columns",
    "--encoding",
];

const FLAGS: [&str; 4] = ["--header", "--fill", "--counts", "--help"];

fn takes_value(option: &str) -> bool {
    VALUED.contains(&option)
}

impl<'a> Asked<'a> {
    /// Takes an option with its value, or the name of the file. Returns false for a mistake.
    fn take(
        &mut self,
        alloc: Global,
        option: &'a str,
        value: Option<&'a str>,
    ) -> Result<bool, AllocError> {
        let Some(value) = value else {
            return Ok(self.take_alone(option));
        };
        let recipe = &mut self.recipe;
        match option {
            "--encoding" => return Ok(put(&mut recipe.encoding, Encoding::of_name(value))),
            "--sep" => return Ok(put(&mut recipe.fields, Fields::of_word(value))),
            "--skip" => return Ok(put(&mut recipe.skip, value.parse().ok())),
            "--skip-last" => return Ok(put(&mut recipe.skip_last, value.parse().ok())),
            "--within" => recipe.within = separator_of(value),
            "--columns" => match places(alloc, value)? {
                Some(starts) => recipe.fields = Fields::Columns(starts),
                None => return Ok(false),
            },
            "--basket" => return Ok(put(&mut recipe.basket, keys(alloc, value)?)),
            "--item" | "--marks" => {
                recipe.are_marks = option == "--marks";
                return Ok(put(&mut recipe.items, spans(alloc, value)?));
            }
            _ => return Ok(false),
        }
        Ok(option != "--within" || self.recipe.within.is_some())
    }

    /// Takes a word without a value.
    fn take_alone(&mut self, word: &'a str) -> bool {
        match word {
            "--header" => self.recipe.has_header = true,
            "--fill" => self.recipe.fills = true,
            "--counts" => self.recipe.has_counts = true,
            _ => return self.take_file(word),
        }
        true
    }

    /// Takes the name of the file, which comes once.
    fn take_file(&mut self, word: &'a str) -> bool {
        if self.has_file || word.starts_with('-') && word != "-" {
            return false;
        }
        self.has_file = true;
        self.file = (word != "-").then_some(word);
        true
    }
}

/// Puts a value where it belongs, if there is one.
fn put<T: Drop>(place: &mut T, value: Option<T>) -> bool {
    match value {
        Some(value) => {
            *place = value;
            true
        }
        None => false,
    }
}
