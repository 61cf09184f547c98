//! The options of the command line.
ghost use Rattle.std.specs.Prelude.{◌≡◌, IfOk, false};
ghost use Rattle.clap.specs.Words.{app_of, rule_of};
ghost use Rattle.clap.specs.declared.builder.command.Command.TheViews.{out-Command as fields_of};
ghost use Rattle.basket_plan.specs.Options.{TakesMore, choice, option, rule_of_taken};

use crate::plan::{MOST_PIECES, MOST_WORKERS};
use clap::builder::ValueParser;
use clap::{Arg, ArgAction, Command};
use std::alloc::{AllocError, Global};

/// What a command takes of the words: its name, what its value is called in the usage of mistakes,
/// and which it is if it isn't given.
#[derive(Clone, Copy)]
pub enum Taken {
    Required(&'static str, &'static str),
    Choice(&'static str, &'static str, &'static str),
    Flag(&'static str),
    Number(&'static str, &'static str, u32, &'static str),
    Positional(&'static str, &'static str),
}

/// What all commands except `count` take.
pub const REPORT: [Taken; 10] = [
    Taken::Required("min", "M"),
    Taken::Choice("form", "F", "fimi"),
    Taken::Choice("sep", "S", "comma"),
    Taken::Flag("header"),
    Taken::Flag("weight"),
    Taken::Choice("miner", "A", "apriori"),
    Taken::Number("limit", "L", u32::MAX, "4294967295"),
    Taken::Number("workers", "W", MOST_WORKERS, "1"),
    Taken::Number("pieces", "P", MOST_PIECES, "16"),
    Taken::Positional("file", "FILE"),
];

/// What only `rules` takes.
pub const CONFIDENCE: [Taken; 1] = [Taken::Required("conf", "C")];

/// What `count` takes.
pub const COUNT: [Taken; 8] = [
    Taken::Required("sets", "FILE"),
    Taken::Choice("form", "F", "fimi"),
    Taken::Choice("sep", "S", "comma"),
    Taken::Flag("header"),
    Taken::Flag("weight"),
    Taken::Number("workers", "W", MOST_WORKERS, "1"),
    Taken::Number("pieces", "P", MOST_PIECES, "16"),
    Taken::Positional("file", "FILE"),
];

/// The command with all that it takes.
pub fn with_options<'a>(
    alloc: Global,
    command: Command<'a>,
    options: &[Taken],
) -> Result<Command<'a>, AllocError>
    ensures options { IfOk result (λ added. TakesMore (app_of command.entry) options.now (app_of added)) }
    ensures local { IfOk result (λ added. (fields_of command.entry).has_globals ≡ false → (fields_of added).has_globals ≡ false) }
{
    let mut command = command;
    for taken in options {
        command = command.arg(arg_of(alloc, *taken))?;
    }
    Ok(command)
}

fn arg_of<'a>(alloc: Global, taken: Taken) -> Arg<'a>
    ensures rule { rule_of result ≡ rule_of_taken taken }
    ensures local { result.global ≡ false }
{
    match taken {
        Taken::Required(name, value) => option(alloc, name, value).required(true),
        Taken::Choice(name, value, default) => choice(alloc, name, value, default),
        Taken::Flag(name) => Arg::new(alloc, name).long(name).action(ArgAction::SetTrue),
        Taken::Number(name, value, most, default) => {
            let parser = ValueParser::unsigned(1, u64::from(most));
            choice(alloc, name, value, default).value_parser(parser)
        }
        Taken::Positional(name, value) => Arg::new(alloc, name).value_name(value),
    }
}

/// An option with a value.
fn option<'a>(alloc: Global, name: &'a str, value: &'a str) -> Arg<'a>
    ensures rule { rule_of result ≡ option name.now }
    ensures local { result.global ≡ false }
{
    Arg::new(alloc, name).long(name).value_name(value)
}

/// An option, and its value if it isn't given. `clap` has no list of the names that a value may be: with
/// one the plan would depend on their addresses.
fn choice<'a>(alloc: Global, name: &'a str, value: &'a str, default: &'a str) -> Arg<'a>
    ensures rule { rule_of result ≡ choice name.now default.now }
    ensures local { result.global ≡ false }
{
    option(alloc, name, value).default_value(default)
}
