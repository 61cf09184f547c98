//! Advice on a run, by how it ended.
use crate::fault::{IN_PARTS, input_advice};
use crate::hints::Hints;
use crate::place::Place;
use basket_outcome::RunFault;
use basket_plan::{Ask, Form, Invocation, Task};
use basket_read::ReadFault;
use mine_limit::MineFault;
use std::alloc::{AllocError, Global};
use std::io::Error;

/// What is known of a run, beside how it ended.
#[derive(Clone, Copy, Debug)]
pub struct Told {
    /// The system's code for the last error of a stream.
    pub code: Option<i32>,
    /// Whether a byte was written to standard output.
    pub has_lines: bool,
}

/// Lines of advice on a file that is longer than an input may be, for standard error.
pub fn too_long_advice(alloc: Global, path: Option<&str>) -> Result<String, AllocError> {
    let mut hints = Hints::new(alloc);
    hints.add(in_parts(alloc, path.unwrap_or("standard input"))?.as_str())?;
    Ok(hints.into_text())
}

/// What to do about an input for which there is no room.
fn in_parts(alloc: Global, name: &str) -> Result<String, AllocError> {
    format!(in alloc; "in {name}{IN_PARTS}")
}

/// Lines of advice on help or the version, which could not be written.
pub fn unwritten_advice(alloc: Global, told: Told) -> Result<String, AllocError> {
    let mut hints = Hints::new(alloc);
    hints.add(reason(alloc, "standard output", told.code)?.as_str())?;
    Ok(hints.into_text())
}

/// Lines of advice on a report that was written, for standard error. There may be none.
pub fn report_advice(
    alloc: Global,
    invocation: &Invocation,
    greatest: Option<u64>,
    told: Told,
) -> Result<String, AllocError> {
    let place = Place::of_input(invocation);
    let mut hints = Hints::new(alloc);
    if place.layout.header && !place.layout.form.has_names() {
        hints.add(without_effect(alloc, "--header", place)?.as_str())?;
    }
    if place.layout.weighted && place.layout.form != Form::Baskets {
        hints.add(without_effect(alloc, "--weight", place)?.as_str())?;
    }
    if !told.has_lines {
        hints.add(empty_advice(alloc, &invocation.task, place)?.as_str())?;
        hints.add(greatest_advice(alloc, greatest)?.as_str())?;
        hints.add(place.look(alloc)?.as_str())?;
    }
    Ok(hints.into_text())
}

fn without_effect(alloc: Global, option: &str, place: Place<'_>) -> Result<String, AllocError> {
    let form = place.form_name();
    format!(in alloc; "{option} has no effect with --form {form}")
}

/// Advice on a report without a line.
fn empty_advice(alloc: Global, task: &Task, place: Place<'_>) -> Result<String, AllocError> {
    let what = match task {
        Task::Count(..) => return Ok(String::new(alloc)),
        Task::Report(plan) => match plan.ask() {
            Ask::Rules(_) => "no rule meets --min and --conf",
            Ask::Items => "no item meets --min",
            _ => "no set meets --min",
        },
    };
    format!(in alloc; "{what} in {}", place.name())
}

/// The greatest support of an item, if that is known.
fn greatest_advice(alloc: Global, greatest: Option<u64>) -> Result<String, AllocError> {
    match greatest {
        Some(0) => String::from_str(alloc, "the input has no item"),
        Some(greatest) => format!(in alloc; "the greatest count of an item is {greatest}"),
        None => Ok(String::new(alloc)),
    }
}

/// Lines of advice on the fault of a run, for standard error. There may be none.
pub fn fault_advice(
    alloc: Global,
    invocation: &Invocation,
    fault: RunFault,
    told: Told,
) -> Result<String, AllocError> {
    let mut hints = Hints::new(alloc);
    let code = told.code;
    let (input, sets) = (Place::of_input(invocation), Place::of_sets(invocation));
    match fault {
        RunFault::Input(fault) => say_read(alloc, &mut hints, fault, input, code)?,
        RunFault::Sets(fault) => say_read(alloc, &mut hints, fault, sets, code)?,
        RunFault::Write => hints.add(reason(alloc, "standard output", code)?.as_str())?,
        RunFault::Mine(MineFault::Memory) => {
            hints.add(in_parts(alloc, input.name())?.as_str())?;
        }
        RunFault::Mine(MineFault::TooMany { .. }) => hints.add("raise --min, or raise --limit")?,
        RunFault::Uncounted { nth } => {
            hints.add(uncounted_advice(alloc, nth, input.name(), sets.name())?.as_str())?;
        }
    }
    Ok(hints.into_text())
}

/// Advice on an input that was not read.
fn say_read(
    alloc: Global,
    hints: &mut Hints,
    fault: ReadFault,
    place: Place<'_>,
    code: Option<i32>,
) -> Result<(), AllocError> {
    match fault {
        ReadFault::Memory => hints.add(in_parts(alloc, place.name())?.as_str()),
        ReadFault::Read => hints.add(reason(alloc, place.name(), code)?.as_str()),
        _ => {
            hints.add(input_advice(alloc, fault, place)?.as_str())?;
            hints.add(place.look(alloc)?.as_str())
        }
    }
}

/// Advice on a set without a count: which it is, and where it is missing.
fn uncounted_advice(
    alloc: Global,
    nth: usize,
    input: &str,
    sets: &str,
) -> Result<String, AllocError> {
    if nth == 0 {
        return format!(in alloc; "{input} has no count of all baskets, as (15) or, in CSV, 15");
    }
    format!(in alloc; "{input} has no line for the set that is number {nth} of those in {sets}")
}

/// Why a stream failed, if the system said so.
fn reason(alloc: Global, name: &str, code: Option<i32>) -> Result<String, AllocError> {
    match code.map(Error::from_raw_os_error) {
        Some(error) => format!(in alloc; "{name}: {error}"),
        None => Ok(String::new(alloc)),
    }
}
