//! The commands `look`, which says what a file is, and `pairs`, which writes its baskets' items.
use crate::system::open;
use basket_look::{File, HELP, Look, MOST_BYTES, Style};
use basket_pairs::{PAIRS_HELP, Pairs, PairsFault, Recipe, write_pairs};
use either::Either;
use std::alloc::AllocError;
use std::fs::OpenFile;
use std::io::{self, ErrorKind, Read, Write};

/// Does what is asked of `look` or `pairs`, and returns the exit status.
pub fn look(rt: &HostRuntime, asked: Look<'_>) -> u8 {
    match asked {
        Look::Help => write(rt, HELP),
        Look::At(name, style) => match read(rt, name, style) {
            Ok(text) => write(rt, text.as_str()),
            Err(error) => refuse(rt, name, &error),
        },
        Look::Pairs(Pairs::Help) => write(rt, PAIRS_HELP),
        Look::Pairs(Pairs::Write(recipe, name)) => pairs(rt, &recipe, name),
        Look::Mistake(text) | Look::Pairs(Pairs::Mistake(text)) => explain(rt, text.as_str(), 2),
    }
}

/// What is said of a file, or of standard input. Only its first bytes are read.
fn read(rt: &HostRuntime, name: Option<&str>, style: Style) -> io::Result<String> {
    let opened = open(rt, name)?;
    let size = match &opened {
        Either::Left(file) => Some(file.metadata()?.len()),
        Either::Right(_) => None,
    };
    let mut bytes = Vec::new(rt.alloc());
    let one_more = MOST_BYTES as u64 + 1;
    opened.take(one_more).read_to_end(&mut bytes)?;
    let is_whole = bytes.len() <= MOST_BYTES;
    bytes.truncate(MOST_BYTES);
    let bytes = bytes.as_slice();
    Ok(File {
        name,
        bytes,
        is_whole,
        size,
    }
    .looked(rt.alloc(), style)?)
}

/// Writes the pairs of a file, or of standard input.
fn pairs(rt: &HostRuntime, recipe: &Recipe, name: Option<&str>) -> u8 {
    let mut bytes = Vec::new(rt.alloc());
    let read = match open(rt, name) {
        Ok(mut opened) => opened.read_to_end(&mut bytes),
        Err(error) => Err(error),
    };
    if let Err(error) = read {
        return refuse(rt, name, &error);
    }
    match write_pairs(rt.alloc(), &bytes, recipe, rt.stdout()) {
        Ok(()) => 0,
        Err(PairsFault::Memory) => explain(rt, NO_MEMORY, 6),
        Err(PairsFault::Write) => explain(rt, NO_WRITE, 4),
        Err(PairsFault::NotText { line }) => {
            let encoding = recipe.encoding.name();
            tell(
                rt,
                format!(in rt.alloc();
                    "basket: line {line} is not {encoding}: --encoding says how the text is written\n"
                ),
            )
        }
        Err(PairsFault::NoColumn { column }) => {
            tell(
                rt,
                format!(in rt.alloc(); "basket: no record has a column {column}\n"),
            )
        }
    }
}

const NO_MEMORY: &str = "basket: out of memory\n";

const NO_WRITE: &str = "basket: cannot write the report\n";

/// Says what is wrong with an input, and returns the exit status.
fn tell(rt: &HostRuntime, text: Result<String, AllocError>) -> u8 {
    match text {
        Ok(text) => explain(rt, text.as_str(), 3),
        Err(AllocError) => explain(rt, NO_MEMORY, 6),
    }
}

fn refuse(rt: &HostRuntime, name: Option<&str>, error: &io::Error) -> u8 {
    if error.kind() == ErrorKind::OutOfMemory {
        return explain(rt, NO_MEMORY, 6);
    }
    let name = name.unwrap_or("standard input");
    let _ = eprint!(rt; "basket: cannot read {name}: {error}\n");
    4
}

fn write(rt: &HostRuntime, text: &str) -> u8 {
    let mut output = rt.stdout();
    match output.write_all(text.as_bytes()) {
        Ok(()) => 0,
        Err(_) => explain(rt, NO_WRITE, 4),
    }
}

/// Says why nothing, or not all, is written, and returns the exit status.
fn explain(rt: &HostRuntime, text: &str, status: u8) -> u8 {
    // If standard error takes nothing, the status still tells the fault.
    let _ = eprint!(rt; "{text}");
    status
}
