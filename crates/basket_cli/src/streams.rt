//! Standard streams that are closed.
use std::fs::{File, OpenOptions};
use std::io;
use std::os::fd::AsRawFd;

const NOWHERE: &str = "/dev/null";

/// Files that have the descriptors of closed standard streams, so that no file that is opened later
/// gets one of these. Reading the first, and writing to the others, fails as on a closed stream.
#[derive(Debug, Drop)]
pub struct Held {
    files: [Option<File>; 3],
}

impl Held {
    /// Takes the descriptors of the standard streams that are closed.
    pub fn new(rt: &HostRuntime) -> Self {
        let input = OpenOptions::new().write(true).open(rt, NOWHERE);
        Held {
            files: [
                with_descriptor(input, 0),
                with_descriptor(File::open(rt, NOWHERE), 2),
                with_descriptor(File::open(rt, NOWHERE), 2),
            ],
        }
    }
}

/// A file whose descriptor is at most a number.
fn with_descriptor(opened: io::Result<File>, most: i32) -> Option<File> {
    match opened {
        Ok(file) if file.as_raw_fd() <= most => Some(file),
        _ => None,
    }
}
