ghost use Rattle.std.specs.Prelude.{◌≡◌};
ghost use Rattle.basket_main.specs.Ending.{is_explained, status_at};

use basket::{Done, Invocation, Origin, PlanFault, ReadFault, RunFault, plan_status, status_of};
use std::fmt::{self, Display, Formatter};
use std::io::{self, ErrorKind};

/// How a program ends. What is displayed is what it says on standard error.
#[derive(Debug, Drop)]
pub enum Ending {
    /// The words ask for nothing that can be run, or for help or the version.
    Refused(PlanFault),
    /// Help or the version was asked for, with this text, and the output failed.
    Unanswered(String),
    /// The words name a file that can't be opened, or that is longer than an input may be.
    NotOpened(Origin, io::Error),
    /// What the words ask for was run.
    Ran(Invocation, Result<Done, RunFault>),
}

impl Ending {
    /// The exit status.
    pub fn status(&self) -> u8
        ensures { result ≡ status_at self.now }
    {
        match self {
            Ending::Refused(fault) => plan_status(fault),
            Ending::Unanswered(_) => 4,
            Ending::NotOpened(_, error) => match error.kind() {
                ErrorKind::OutOfMemory => 6,
                ErrorKind::FileTooLarge => 3,
                _ => 4,
            },
            Ending::Ran(_, Ok(_)) => 0,
            Ending::Ran(_, Err(fault)) => status_of(fault),
        }
    }

    /// Whether there is something to say on standard error.
    pub fn is_explained(&self) -> bool
        ensures { result ≡ is_explained self.now }
    {
        match self {
            Ending::Refused(PlanFault::Help(_)) | Ending::Unanswered(_) => false,
            Ending::Refused(_) | Ending::NotOpened(..) => true,
            Ending::Ran(_, ran) => ran.is_err(),
        }
    }
}

impl Display for Ending {
    fn fmt<W: fmt::Write>(&self, f: &mut Formatter<W>) -> fmt::Result {
        match self {
            Ending::Refused(PlanFault::Memory) => f.write_str("basket: out of memory\n"),
            Ending::Refused(PlanFault::Usage(text)) => f.write_str(text.as_str()),
            Ending::NotOpened(_, error) if error.kind() == ErrorKind::OutOfMemory => {
                f.write_str("basket: out of memory\n")
            }
            Ending::NotOpened(_, error) if error.kind() == ErrorKind::FileTooLarge => {
                write!(f, "basket: {}\n", ReadFault::TooLong)
            }
            Ending::NotOpened(origin, error) => {
                let name = origin.path().unwrap_or("standard input");
                write!(f, "basket: cannot open {name}: {error}\n")
            }
            Ending::Ran(_, Err(fault)) => write!(f, "basket: {fault}\n"),
            Ending::Refused(PlanFault::Help(_)) | Ending::Unanswered(_) | Ending::Ran(_, Ok(_)) => {
                Ok(())
            }
        }
    }
}
