//! The command line.
ghost use Rattle.std.specs.Prelude.{◌≡◌, ◌≢◌, IfErr, IfOk, false, fold, map};
ghost use Rattle.clap.specs.Words.{app_of, kind_of};
ghost use Rattle.clap.specs.declared.builder.command.Command.TheViews.{out-Command as fields_of};
ghost use Rattle.basket_plan.specs.declared.command.PlanFault.TheVariants.{Memory};
ghost use Rattle.basket_plan.specs.Options.{bare_line, command_line, listed_app, with_listed};
ghost use Rattle.basket_plan.specs.Command.{asks_help, invocation_of_plain, invocation_of_words, is_help_kind, is_help, plain_asks_help, plain_words};
ghost use Rattle.basket_plan.specs.Status.{plan_status_of};

use crate::help;
use crate::invocation::{Invocation, invocation_from};
use crate::options::{CONFIDENCE, COUNT, REPORT, Taken, with_options};
use clap::error::ErrorKind;
use clap::{Command, Error};
use std::alloc::{AllocError, Global};

/// A command: its name, the options that it shares with others, and its own.
#[derive(Clone, Copy)]
pub struct Listed {
    name: &'static str,
    shared: &'static [Taken],
    own: &'static [Taken],
}

const COMMANDS: [Listed; 6] = [
    Listed {
        name: "items",
        shared: &REPORT,
        own: &[],
    },
    Listed {
        name: "sets",
        shared: &REPORT,
        own: &[],
    },
    Listed {
        name: "closed",
        shared: &REPORT,
        own: &[],
    },
    Listed {
        name: "maximal",
        shared: &REPORT,
        own: &[],
    },
    Listed {
        name: "rules",
        shared: &REPORT,
        own: &CONFIDENCE,
    },
    Listed {
        name: "count",
        shared: &COUNT,
        own: &[],
    },
];

/// Why words of a command line make no plan.
#[derive(Debug, Drop)]
pub enum PlanFault {
    Memory,
    /// A mistake in the words, with the text to print on standard error.
    Usage(String),
    /// Help or the version was asked for, with the text to print on standard output.
    Help(String),
}

impl From<AllocError> for PlanFault {
    ghost from_gives = { λ _ fault. fault ≡ Memory };

    fn from(_error: AllocError) -> Self {
        PlanFault::Memory
    }
}

/// The exit status of a program that can't go on for the fault.
pub fn plan_status(fault: &PlanFault) -> u8
    ensures { result ≡ plan_status_of fault.now }
{
    match fault {
        PlanFault::Memory => 6,
        PlanFault::Usage(_) => 2,
        PlanFault::Help(_) => 0,
    }
}

/// What the words ask for. The program's name is not among them.
pub fn invocation_of(alloc: Global, words: &[&str]) -> Result<Invocation, PlanFault>
    ensures made { IfOk result (λ invocation. invocation_of_words (map (λ word. word.now) words.now) ≡ Some invocation) }
    ensures refused { IfErr result (λ fault. fault ≢ PlanFault.Memory → invocation_of_words (map (λ word. word.now) words.now) ≡ None) }
    ensures help { IfErr result (λ fault. fault ≢ PlanFault.Memory → asks_help (map (λ word. word.now) words.now) ≡ is_help fault) }
{
    let words = plain_words(alloc, words)?;
    invocation_of_plain(alloc, &words)
}

/// The words that `clap` is given: `help sets` stands for `sets --help`, and `help help` for `help`.
/// With more than one word after it, `help` is a command that `clap` doesn't know.
fn plain_words<'a>(alloc: Global, words: &[&'a str]) -> Result<Vec<&'a str>, AllocError>
    ensures { IfOk result (λ plain. map (λ word. word.now) plain.items ≡ plain_words (map (λ word. word.now) words.now)) }
{
    match words.split_first() {
        Some((first, rest)) if *first == "help" && rest.len() < 2 => {
            let mut plain = Vec::new(alloc);
            if let Some(name) = rest.first()
                && *name != "help"
            {
                plain.push(*name)?;
            }
            plain.push("--help")?;
            Ok(plain)
        }
        _ => Vec::from_slice(alloc, words),
    }
}

/// What words ask for that `clap` is given.
fn invocation_of_plain<'a>(alloc: Global, words: &'a [&'a str]) -> Result<Invocation, PlanFault>
    ensures made { IfOk result (λ invocation. invocation_of_plain (map (λ word. word.now) words.now) ≡ Some invocation) }
    ensures refused { IfErr result (λ fault. fault ≢ PlanFault.Memory → invocation_of_plain (map (λ word. word.now) words.now) ≡ None) }
    ensures help { IfErr result (λ fault. fault ≢ PlanFault.Memory → plain_asks_help (map (λ word. word.now) words.now) ≡ is_help fault) }
{
    match command_line(alloc)?.try_get_matches_from(words) {
        Ok(matches) => invocation_from(alloc, &matches),
        Err(error) => Err(fault_of(alloc, &error)),
    }
}

fn command_line<'a>(alloc: Global) -> Result<Command<'a>, AllocError>
    ensures { IfOk result (λ command. app_of command ≡ command_line) }
{
    line_with(alloc, &COMMANDS)
}

/// The command line without its commands.
#[tactic(auto, using(std::proofs::lemmas::Grind::common_steps))]
fn bare_line<'a>(alloc: Global) -> Result<Command<'a>, AllocError>
    ensures { IfOk result (λ command. app_of command ≡ bare_line) }
{
    Command::new(alloc, "basket")
        .no_binary_name(true)
        .version(help::VERSION)
        .override_help(help::of("basket"))
        .subcommand_required(true)
        .disable_help_subcommand(true)
        .bin_name("basket")
}

/// The command line with these commands.
fn line_with<'a>(alloc: Global, commands: &[Listed]) -> Result<Command<'a>, AllocError>
    ensures { IfOk result (λ line. app_of line ≡ fold with_listed bare_line commands.now) }
{
    let mut line = bare_line(alloc)?;
    for listed in commands {
        line = line.subcommand(command(alloc, *listed)?)?;
    }
    Ok(line)
}

fn command<'a>(alloc: Global, listed: Listed) -> Result<Command<'a>, AllocError>
    ensures options { IfOk result (λ command. app_of command ≡ listed_app listed) }
    ensures local { IfOk result (λ command. (fields_of command).has_globals ≡ false) }
{
    let Listed { name, shared, own } = listed;
    let command = Command::new(alloc, name).override_help(help::of(name));
    with_options(alloc, with_options(alloc, command, shared)?, own)
}

fn fault_of(alloc: Global, error: &Error) -> PlanFault
    ensures memory { result ≢ PlanFault.Memory → kind_of error.now ≢ ErrorKind.OutOfMemory }
    ensures help { result ≢ PlanFault.Memory → is_help_kind (kind_of error.now) ≡ is_help result }
{
    if let ErrorKind::OutOfMemory = error.kind() {
        return PlanFault::Memory;
    }
    match error.to_string(alloc) {
        Ok(text) if error.use_stderr() => PlanFault::Usage(text),
        Ok(text) => PlanFault::Help(text),
        Err(_) => PlanFault::Memory,
    }
}
