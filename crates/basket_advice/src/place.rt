use basket_look::shell_word;
use basket_plan::{Form, Invocation, Layout, Task};
use std::alloc::{AllocError, Global};

/// An input, as advice speaks of it: its file, if it isn't standard input, and how it is written.
#[derive(Clone, Copy, Debug)]
pub struct Place<'a> {
    path: Option<&'a str>,
    pub layout: Layout,
}

impl<'a> Place<'a> {
    /// The input of a run.
    pub fn of_input(invocation: &'a Invocation) -> Self {
        let layout = match &invocation.task {
            Task::Report(plan) => plan.layout(),
            Task::Count(plan, _) => plan.layout(),
        };
        Place {
            path: invocation.input.path(),
            layout,
        }
    }

    /// The sets that a run counts. A report has none, and its input stands for them.
    pub fn of_sets(invocation: &'a Invocation) -> Self {
        let input = Place::of_input(invocation);
        match &invocation.task {
            Task::Report(_) => input,
            Task::Count(_, sets) => Place {
                path: sets.path(),
                // The sets have no header.
                layout: Layout {
                    header: true,
                    ..input.layout
                },
            },
        }
    }

    pub fn name(&self) -> &'a str {
        self.path.unwrap_or("standard input")
    }

    pub fn form_name(&self) -> &'static str {
        match self.layout.form {
            Form::Fimi => "fimi",
            Form::Baskets => "baskets",
            Form::Single => "single",
            Form::Counts => "counts",
            Form::CsvCounts => "csv-counts",
        }
    }

    /// The way to see what is in a file that can be read a second time.
    pub fn look(&self, alloc: Global) -> Result<String, AllocError> {
        match self.path {
            Some(path) if !path.starts_with("/dev/") && !path.starts_with("/proc/") => {
                let word = shell_word(alloc, path)?;
                format!(in alloc; "`basket look {word}` says what is in the file")
            }
            _ => Ok(String::new(alloc)),
        }
    }
}
