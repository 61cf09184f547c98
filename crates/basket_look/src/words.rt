//! The words after `basket`, if they are about `look` or `pairs`.
ghost use Rattle.std.specs.Prelude.{◌≡◌, IfOk, is_some, map};
ghost use Rattle.basket_look.specs.Words.{is_about_look, is_help_of_look, is_look};

use crate::file::Style;
use basket_pairs::{Pairs, pairs_asked};
use std::alloc::{AllocError, Global};

pub const HELP: &str = "\
Says what a file is, before it is mined: how its text is written, which form it has, its columns,
and the command that mines it.

Usage: basket look [OPTIONS] [FILE]

Arguments:
  [FILE]  The file. Without it, or if it is -, standard input is looked at

Options:
      --json  Says it to programs: one object of JSON, whose keys stay
  -h, --help  Print help

Only the first 1048576 bytes are read, and nothing is mined. What is recognised is a guess, which
no proof covers; without --json it is for people, and its text may change. The commands have a
--min to begin with, which some 150 sets meet: choose your own. `basket pairs --help` explains the
command that stands before them where a table has to be rewritten.

Example:
  printf '1 2\\n2 3\\n' | basket look
";

/// What is asked of `look`, or of `pairs`.
#[derive(Drop)]
pub enum Look<'a> {
    Help,
    /// To look at a file, or at standard input.
    At(Option<&'a str>, Style),
    Pairs(Pairs<'a>),
    /// Nothing, for a mistake that this text explains.
    Mistake(String),
}

/// What the words of a command line ask of `look` or `pairs`, if they are about these.
pub fn look_of<'a>(alloc: Global, words: &[&'a str]) -> Result<Option<Look<'a>>, AllocError>
    ensures { IfOk result (λ found. is_some found ≡ is_about_look (map (λ word. word.now) words.now)) }
{
    if !is_about_look(words) {
        return Ok(None);
    }
    Ok(Some(asked(alloc, words)?))
}

/// Whether words are about `look` or `pairs`.
fn is_about_look(words: &[&str]) -> bool
    ensures { result ≡ is_about_look (map (λ word. word.now) words.now) }
{
    match words.split_first() {
        Some((first, rest)) => is_look(first) || *first == "help" && is_help_of_look(rest),
        None => false,
    }
}

/// Whether the words behind `help` are one of these alone.
fn is_help_of_look(words: &[&str]) -> bool
    ensures { result ≡ is_help_of_look (map (λ word. word.now) words.now) }
{
    match words {
        [command] => is_look(command),
        _ => false,
    }
}

/// Whether a command is `look` or `pairs`.
fn is_look(command: &str) -> bool
    ensures { result ≡ is_look command.now }
{
    command == "look" || command == "pairs"
}

/// What words ask for that are about `look` or `pairs`.
fn asked<'a>(alloc: Global, words: &[&'a str]) -> Result<Look<'a>, AllocError> {
    match words {
        ["look", rest @ ..] => look_after(alloc, rest),
        ["pairs", rest @ ..] => Ok(Look::Pairs(pairs_asked(alloc, rest)?)),
        [_, "pairs"] => Ok(Look::Pairs(Pairs::Help)),
        _ => Ok(Look::Help),
    }
}

/// What the words after `look` ask for.
fn look_after<'a>(alloc: Global, words: &[&'a str]) -> Result<Look<'a>, AllocError> {
    let (mut style, mut file, mut has_file) = (Style::Text, None, false);
    for word in words {
        match option_in(word) {
            "--help" | "-h" => return Ok(Look::Help),
            "--json" => style = Style::Json,
            "-" if !has_file => has_file = true,
            name if !has_file && !name.starts_with('-') => {
                has_file = true;
                file = Some(name);
            }
            word => return mistake(alloc, word),
        }
    }
    Ok(Look::At(file, style))
}

/// The option of a word that may have its value behind it.
fn option_in(word: &str) -> &str {
    word.split('=').next().unwrap_or(word)
}

/// What `clap` says of a word that isn't expected.
fn mistake<'a>(alloc: Global, word: &str) -> Result<Look<'a>, AllocError> {
    let option = option_in(word);
    let text = format!(in alloc;
        "error: unexpected argument '{option}' found\n\nUsage: basket look [OPTIONS] [FILE]\n\n\
For more information, try '--help'.\n"
    )?;
    Ok(Look::Mistake(text))
}
