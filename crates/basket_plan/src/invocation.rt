//! What a command line asks for, and the files that it names.
ghost use Rattle.std.specs.Prelude.{◌≡◌, ◌≢◌, IfErr, IfOk, false, option_map};
ghost use Rattle.std.specs.String.{string_bytes};
ghost use Rattle.clap.specs.Words.{found_of, rows_of, subcommand_rows_of};
ghost use Rattle.basket_plan.specs.Command.{count_invocation_of_rows, invocation_of_command, is_help, report_of_rows};

use crate::command::PlanFault;
use crate::count_plan::CountPlan;
use crate::plan::Plan;
use crate::values::{count_plan_in, origin_in, plan_in};
use clap::ArgMatches;
use std::alloc::{AllocError, Global};
use std::marker::Model;

const BOTH_STANDARD: &str = "basket: --sets and the baskets are both standard input\n";

/// Where bytes come from: standard input, or a file.
#[derive(Debug, Drop)]
pub struct Origin {
    path: Option<String>,
}

impl Model for Origin {
    ghost use Rattle.std.specs.Prelude.{List, Option, option_map, ℕ};
    ghost use Rattle.std.specs.String.{string_bytes};

    ghost Value = { Option (List ℕ) };

    ghost view = { λ origin. option_map string_bytes origin.path };
}

impl Origin {
    pub fn standard() -> Self
        ensures { result ≡ None }
    {
        Origin { path: None }
    }

    pub fn file(path: String) -> Self
        ensures { result ≡ Some (string_bytes path) }
    {
        Origin { path: Some(path) }
    }

    /// The path of the file, if it is one.
    pub fn path(&self) -> Option<&str>
        ensures { option_map (λ path. path.now) result ≡ self.now }
    {
        match &self.path {
            Some(path) => Some(path.as_str()),
            None => None,
        }
    }
}

/// What is to be done over an input.
#[derive(Debug, Drop)]
pub enum Task {
    /// A report of what is often bought.
    Report(Plan),
    /// The counts of the sets that come from there.
    Count(CountPlan, Origin),
}

/// A task, and where its input comes from.
#[derive(Debug, Drop)]
pub struct Invocation {
    pub task: Task,
    pub input: Origin,
}

/// What words ask for that `clap` has accepted.
pub fn invocation_from(alloc: Global, matches: &ArgMatches<'_>) -> Result<Invocation, PlanFault>
    ensures made { IfOk result (λ invocation. invocation_of_command (subcommand_rows_of matches.now) ≡ Some invocation) }
    ensures refused { IfErr result (λ fault. fault ≢ PlanFault.Memory → invocation_of_command (subcommand_rows_of matches.now) ≡ None) }
    ensures help { IfErr result (λ fault. is_help fault ≡ false) }
{
    let Some((name, options)) = matches.subcommand() else {
        return Err(usage(alloc, "basket: no command\n"));
    };
    match name {
        "count" => counting(alloc, options),
        _ => reporting(alloc, name, options),
    }
}

/// What a command that writes a report asks for.
fn reporting(alloc: Global, name: &str, options: &ArgMatches<'_>) -> Result<Invocation, PlanFault>
    ensures made { IfOk result (λ invocation. report_of_rows name.now (rows_of (found_of options.now)) ≡ Some invocation) }
    ensures refused { IfErr result (λ fault. fault ≢ PlanFault.Memory → report_of_rows name.now (rows_of (found_of options.now)) ≡ None) }
    ensures help { IfErr result (λ fault. is_help fault ≡ false) }
{
    let plan = match plan_in(name, options) {
        Ok(plan) => plan,
        Err(text) => return Err(usage(alloc, text)),
    };
    let input = origin_in(alloc, "file", options)?;
    Ok(Invocation {
        task: Task::Report(plan),
        input,
    })
}

/// What `count` asks for.
fn counting(alloc: Global, options: &ArgMatches<'_>) -> Result<Invocation, PlanFault>
    ensures made { IfOk result (λ invocation. count_invocation_of_rows (rows_of (found_of options.now)) ≡ Some invocation) }
    ensures refused { IfErr result (λ fault. fault ≢ PlanFault.Memory → count_invocation_of_rows (rows_of (found_of options.now)) ≡ None) }
    ensures help { IfErr result (λ fault. is_help fault ≡ false) }
{
    let plan = match count_plan_in(options) {
        Ok(plan) => plan,
        Err(text) => return Err(usage(alloc, text)),
    };
    let sets = origin_in(alloc, "sets", options)?;
    let input = origin_in(alloc, "file", options)?;
    if sets.path().is_none() && input.path().is_none() {
        return Err(usage(alloc, BOTH_STANDARD));
    }
    Ok(Invocation {
        task: Task::Count(plan, sets),
        input,
    })
}

fn usage(alloc: Global, text: &str) -> PlanFault
    ensures { is_help result ≡ false }
{
    match String::from_str(alloc, text) {
        Ok(text) => PlanFault::Usage(text),
        Err(_) => PlanFault::Memory,
    }
}
