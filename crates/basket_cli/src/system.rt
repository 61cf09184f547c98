//! The system's files and streams, as the program opens and writes them.
ghost use Rattle.std.specs.Prelude.{None};

use crate::kept::Kept;
use basket::{Origin, StdSource};
use basket_main::{Ending, ErrorStream, Inputs};
use either::Either;
use std::cell::Cell;
use std::fs::File;
use std::io::{self, ErrorKind, IsTerminal, Stdin};

/// How many bytes an input may have.
const MOST_BYTES: u64 = u32::MAX as u64;

/// The system's files and its standard input.
#[derive(Drop)]
pub struct SystemInputs<'a> {
    pub rt: &'a HostRuntime,
    /// Where the system's code for the last error of a read is put.
    pub code: &'a Cell<Option<i32>>,
}

/// A file or standard input.
pub type Opened = Either<File, Stdin>;

/// Opens a file, or standard input if there is no path. Who sits before it is told that it is read.
pub fn open(rt: &HostRuntime, path: Option<&str>) -> io::Result<Opened> {
    if let Some(path) = path {
        return Ok(Either::Left(File::open(rt, path)?));
    }
    let input = rt.stdin();
    if input.is_terminal() && rt.stderr().is_terminal() {
        let _ = eprint!(rt; "hint: reading standard input; Ctrl-D on a line of its own ends it\n");
    }
    Ok(Either::Right(input))
}

impl<'a> Inputs for SystemInputs<'a> {
    type Input = StdSource<Kept<'a, Opened>>;

    type Sets = StdSource<Kept<'a, Opened>>;

    ghost bytes = { λ _ _. None };

    ghost opened = { λ _. None };

    ghost room = { λ _. 2 };

    fn open(&mut self, origin: &Origin) -> io::Result<StdSource<Kept<'a, Opened>>> {
        let opened = open(self.rt, origin.path())?;
        if let Either::Left(file) = &opened {
            // In a page no file has a known size.
            if let Ok(found) = file.metadata() {
                if found.len() > MOST_BYTES {
                    return Err(io::Error::from(ErrorKind::FileTooLarge));
                }
            }
        }
        Ok(StdSource::new(Kept::new(opened, self.code)))
    }

    fn open_sets(&mut self, origin: &Origin) -> io::Result<StdSource<Kept<'a, Opened>>> {
        self.open(origin)
    }
}

/// The system's standard error.
#[derive(Drop)]
pub struct StandardError<'a> {
    pub rt: &'a HostRuntime,
}

impl ErrorStream for StandardError<'_> {
    ghost explained = { λ _. None };

    ghost room = { λ _. 1 };

    fn explain(&mut self, ending: &Ending) {
        // If standard error takes nothing, the status still tells the fault.
        let _ = eprint!(self.rt; "{ending}");
    }
}
