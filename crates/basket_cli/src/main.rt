//! The program `basket`: a command line, an input, a report on standard output. At a terminal a
//! line of advice follows a fault. `basket look` is a program of its own.
#![tactic(auto)]

mod advice;
mod glance;
mod kept;
mod streams;
mod system;

use advice::advise;
use basket::{PlanFault, StdSink};
use basket_advice::Told;
use basket_look::look_of;
use basket_main::{perform, refuse};
use glance::look;
use kept::Kept;
use std::alloc::AllocError;
use std::cell::Cell;
use std::env;
use std::io::ErrorKind;
use std::process::ExitCode;
use std::random::RandomSource;
use std::thread::Threads;
use streams::Held;
use system::{StandardError, SystemInputs};

fn main(rt: HostRuntime) -> ExitCode {
    let _held = Held::new(&rt);
    let status = match words(&rt) {
        Ok(words) => begin(&rt, &rt, &words),
        Err(fault) => end(&rt, fault),
    };
    ExitCode::from(status)
}

/// The words of the command line, without the program's name.
fn words(rt: &HostRuntime) -> Result<Vec<String>, PlanFault> {
    match env::args(rt) {
        Ok(words) => Ok(words.skip(1).collect(rt.alloc())?),
        Err(error) if error.kind() == ErrorKind::OutOfMemory => Err(PlanFault::Memory),
        Err(_) => Err(PlanFault::Usage(no_text(rt)?)),
    }
}

fn no_text(rt: &HostRuntime) -> Result<String, AllocError> {
    String::from_str(rt.alloc(), "basket: the command line is not UTF-8 text\n")
}

/// Says why there are no words, and returns the exit status.
fn end(rt: &HostRuntime, fault: PlanFault) -> u8 {
    let mut output = StdSink::new(rt.stdout());
    refuse(fault, &mut output, &mut StandardError { rt }).status()
}

/// Does what the words ask for, and returns the exit status. The workers are threads of the second
/// runtime.
fn begin<R: RandomSource + Threads + Sync>(rt: &HostRuntime, threads: &R, owned: &[String]) -> u8 {
    let words: Vec<&str> = match owned.iter().map(|word| word.as_str()).collect(rt.alloc()) {
        Ok(words) => words,
        Err(AllocError) => return end(rt, PlanFault::Memory),
    };
    match look_of(rt.alloc(), &words) {
        Ok(Some(asked)) => look(rt, asked),
        Ok(None) => mine(rt, threads, &words),
        Err(AllocError) => end(rt, PlanFault::Memory),
    }
}

/// Does what words ask for that are not about `look`, gives advice, and returns the exit status.
fn mine<R: RandomSource + Threads + Sync>(rt: &HostRuntime, threads: &R, words: &[&str]) -> u8 {
    let code = Cell::new(None);
    let mut inputs = SystemInputs { rt, code: &code };
    let mut kept = Kept::new(rt.stdout(), &code);
    let mut output = StdSink::new(&mut kept);
    let mut errors = StandardError { rt };
    let alloc = rt.alloc();
    let ending = perform(threads, alloc, words, &mut inputs, &mut output, &mut errors);
    let told = Told {
        code: code.get(),
        has_lines: kept.is_used(),
    };
    advise(rt, &ending, words, told);
    ending.status()
}
