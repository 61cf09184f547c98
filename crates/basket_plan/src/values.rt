//! What the values of the options say.
ghost use Rattle.std.specs.Prelude.{◌≡◌, ◌≤◌, IfErr, IfOk, IfSome, IsTrue};
ghost use Rattle.clap.specs.Words.{found_of, rows_of};
ghost use Rattle.basket_plan.specs.Values.{ask_in, conf_in, count_plan_of_rows, flag_in, form_in, layout_of_rows, min_in, miner_in, number_in, origin_in, plan_of_rows, question_of_rows, sep_in, separator_itself, separator_of, work_of_rows};
ghost use Rattle.basket_plan.specs.Plan.{is_separator};
ghost use Rattle.basket_plan.specs.declared.plan.TheConstants.{MOST_PIECES, MOST_WORKERS};
ghost use Rattle.basket_sets.specs.Minimum.{IsMinimum};

use crate::count_plan::CountPlan;
use crate::invocation::Origin;
use crate::layout::{Form, Layout};
use crate::plan::{Ask, MOST_PIECES, MOST_WORKERS, Miner, Plan};
use basket_sets::{Minimum, Share, parse_minimum, parse_share};
use clap::ArgMatches;
use std::alloc::{AllocError, Global};

const BAD_FORM: &str = "basket: bad value for --form (fimi, baskets, single, counts, csv-counts)\n";

const BAD_WORKERS: &str = "basket: bad value for --workers\n";

const BAD_PIECES: &str = "basket: bad value for --pieces\n";

const BAD_SEP: &str = "basket: bad value for --sep (comma, semicolon, tab, pipe)\n";

const BAD_MINER: &str =
    "basket: bad value for --miner (apriori, eclat, eclat-diff, eclat-bits, fpgrowth)\n";

/// The plan of a command with its options, or the text to print of a value that can't be read.
pub fn plan_in(name: &str, options: &ArgMatches<'_>) -> Result<Plan, &'static str>
    ensures made { IfOk result (λ plan. plan_of_rows name.now (rows_of (found_of options.now)) ≡ Some plan) }
    ensures refused { IfErr result (λ _. plan_of_rows name.now (rows_of (found_of options.now)) ≡ None) }
{
    let layout = layout_in(options)?;
    let miner = miner_in(options).ok_or(BAD_MINER)?;
    let plan = asked_in(name, layout, options)?;
    let (workers, pieces) = work_in(options)?;
    Ok(
        plan.with_miner(miner)
            .with_workers(workers)
            .with_pieces(pieces),
    )
}

/// A plan of the question of a command with its options, or the text to print of a value that can't be read.
fn asked_in(name: &str, layout: Layout, options: &ArgMatches<'_>) -> Result<Plan, &'static str>
    requires { IsTrue (is_separator layout.separator) }
    ensures made { IfOk result (λ plan. question_of_rows layout name.now (rows_of (found_of options.now)) ≡ Some plan.question) }
    ensures refused { IfErr result (λ _. question_of_rows layout name.now (rows_of (found_of options.now)) ≡ None) }
{
    let minimum = min_in(options).ok_or("basket: bad value for --min\n")?;
    let ask = ask_in(name, options).ok_or("basket: bad value for --conf\n")?;
    let limit = number_in("limit", u32::MAX, options).ok_or("basket: bad value for --limit\n")?;
    Ok(Plan::of(ask, minimum).with_layout(layout).with_limit(limit))
}

/// The plan of `count` with its options, or the text to print of a value that can't be read.
pub fn count_plan_in(options: &ArgMatches<'_>) -> Result<CountPlan, &'static str>
    ensures made { IfOk result (λ plan. count_plan_of_rows (rows_of (found_of options.now)) ≡ Some plan) }
    ensures refused { IfErr result (λ _. count_plan_of_rows (rows_of (found_of options.now)) ≡ None) }
{
    let layout = layout_in(options)?;
    let (workers, pieces) = work_in(options)?;
    Ok(
        CountPlan::of(layout)
            .with_workers(workers)
            .with_pieces(pieces),
    )
}

/// How many workers share the work, and into how many pieces it is cut, or the text to print of a
/// value that can't be read.
fn work_in(options: &ArgMatches<'_>) -> Result<(u32, u32), &'static str>
    ensures made { IfOk result (λ work. work_of_rows (rows_of (found_of options.now)) ≡ Some work) }
    ensures in_range { IfOk result (λ work. (1 ≤ work.0) × (work.0 ≤ MOST_WORKERS) × (1 ≤ work.1) × (work.1 ≤ MOST_PIECES)) }
    ensures refused { IfErr result (λ _. work_of_rows (rows_of (found_of options.now)) ≡ None) }
{
    let workers = number_in("workers", MOST_WORKERS, options).ok_or(BAD_WORKERS)?;
    let pieces = number_in("pieces", MOST_PIECES, options).ok_or(BAD_PIECES)?;
    Ok((workers, pieces))
}

/// How the input is written, or the text to print of a value that can't be read.
fn layout_in(options: &ArgMatches<'_>) -> Result<Layout, &'static str>
    ensures made { IfOk result (λ layout. layout_of_rows (rows_of (found_of options.now)) ≡ Some layout) }
    ensures in_range { IfOk result (λ layout. IsTrue (is_separator layout.separator)) }
    ensures refused { IfErr result (λ _. layout_of_rows (rows_of (found_of options.now)) ≡ None) }
{
    let form = form_in(options).ok_or(BAD_FORM)?;
    let separator = sep_in(options).ok_or(BAD_SEP)?;
    Ok(Layout {
        form,
        separator,
        header: flag_in("header", options),
        weighted: flag_in("weight", options),
    })
}

/// Where the file is from which an option takes bytes, or standard input.
#[tactic(auto, using(std::proofs::lemmas::Grind::common_steps, crate::proofs::CommandLemmas::read_none))]
pub fn origin_in(alloc: Global, name: &str, options: &ArgMatches<'_>) -> Result<Origin, AllocError>
    ensures { IfOk result (λ origin. origin ≡ origin_in name.now (rows_of (found_of options.now))) }
{
    match options.get_str(name) {
        None => Ok(Origin::standard()),
        Some("-") => Ok(Origin::standard()),
        Some(path) => Ok(Origin::file(String::from_str(alloc, path)?)),
    }
}

/// What the command of a name asks for.
fn ask_in(name: &str, options: &ArgMatches<'_>) -> Option<Ask>
    ensures { result ≡ ask_in name.now (rows_of (found_of options.now)) }
{
    match name {
        "items" => Some(Ask::Items),
        "sets" => Some(Ask::Sets),
        "closed" => Some(Ask::Closed),
        "maximal" => Some(Ask::Maximal),
        "rules" => Some(Ask::Rules(conf_in(options)?)),
        _ => None,
    }
}

fn conf_in(options: &ArgMatches<'_>) -> Option<Share>
    ensures { result ≡ conf_in (rows_of (found_of options.now)) }
{
    parse_share(options.get_str("conf")?)
}

fn min_in(options: &ArgMatches<'_>) -> Option<Minimum>
    ensures found { result ≡ min_in (rows_of (found_of options.now)) }
    ensures in_range { IfSome result IsMinimum }
{
    parse_minimum(options.get_str("min")?)
}

fn miner_in(options: &ArgMatches<'_>) -> Option<Miner>
    ensures { result ≡ miner_in (rows_of (found_of options.now)) }
{
    match options.get_str("miner")? {
        "apriori" => Some(Miner::Apriori),
        "eclat" => Some(Miner::Eclat),
        "eclat-diff" => Some(Miner::EclatDiff),
        "eclat-bits" => Some(Miner::EclatBits),
        "fpgrowth" => Some(Miner::FpGrowth),
        _ => None,
    }
}

fn form_in(options: &ArgMatches<'_>) -> Option<Form>
    ensures { result ≡ form_in (rows_of (found_of options.now)) }
{
    match options.get_str("form")? {
        "fimi" => Some(Form::Fimi),
        "baskets" => Some(Form::Baskets),
        "single" => Some(Form::Single),
        "counts" => Some(Form::Counts),
        "csv-counts" => Some(Form::CsvCounts),
        _ => None,
    }
}

fn sep_in(options: &ArgMatches<'_>) -> Option<u8>
    ensures found { result ≡ sep_in (rows_of (found_of options.now)) }
    ensures in_range { IfSome result (λ sep. IsTrue (is_separator sep)) }
{
    let text = options.get_str("sep")?;
    separator_of(text)
}

#[tactic(auto, using(std::proofs::lemmas::Grind::common_steps, crate::proofs::CommandLemmas::skips))]
fn separator_of(text: &str) -> Option<u8>
    ensures found { result ≡ separator_of text.now }
    ensures in_range { IfSome result (λ sep. IsTrue (is_separator sep)) }
{
    match text {
        "comma" => Some(b','),
        "semicolon" => Some(b';'),
        "tab" => Some(b'\t'),
        "pipe" => Some(b'|'),
        _ => separator_itself(text),
    }
}

/// A separator that stands for itself.
fn separator_itself(text: &str) -> Option<u8>
    ensures found { result ≡ separator_itself text.now }
    ensures in_range { IfSome result (λ sep. IsTrue (is_separator sep)) }
{
    match text.as_bytes() {
        [byte] if is_separator(*byte) => Some(*byte),
        _ => None,
    }
}

fn is_separator(byte: u8) -> bool
    ensures { result ≡ is_separator byte }
{
    byte == b',' || byte == b';' || byte == b'\t' || byte == b'|'
}

/// Whether the flag of a name is given.
#[tactic(auto, using(std::proofs::lemmas::Grind::common_steps, crate::proofs::CommandLemmas::flag_some, crate::proofs::CommandLemmas::flag_none))]
fn flag_in(name: &str, options: &ArgMatches<'_>) -> bool
    ensures { result ≡ flag_in name.now (rows_of (found_of options.now)) }
{
    match options.get_str(name) {
        Some(value) => value == "true",
        None => false,
    }
}

/// The number of the option of a name, from 1 to the greatest.
#[tactic(auto, using(std::proofs::lemmas::Grind::common_steps, crate::proofs::CommandLemmas::number_none))]
fn number_in(name: &str, most: u32, options: &ArgMatches<'_>) -> Option<u32>
    ensures found { result ≡ number_in name.now most (rows_of (found_of options.now)) }
    ensures in_range { IfSome result (λ number. (1 ≤ number) × (number ≤ most)) }
{
    match options.get_one::<u32>(name) {
        Some(number) if 1 <= number && number <= most => Some(number),
        _ => None,
    }
}
