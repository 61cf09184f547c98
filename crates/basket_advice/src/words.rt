//! Advice on words of a command line that were refused.
use crate::decimal::Decimal;
use crate::hints::Hints;
use std::alloc::{AllocError, Global};

const MIN_FORMS: &str =
    "--min takes a number of baskets, as 20, or a share of all baskets, as 5% or 1/200";

const CONF_FORMS: &str = "--conf takes a share, as 60% or 2/3";

const ONE_INPUT: &str = "there is one input file: concatenate FIMI files (cat A B | basket ..), \
or count the parts and add up (`man basket`, PARTS)";

const ALL_SETS: &str =
    "`count` counts every set of --sets, so it takes no --min, --miner or --limit";

const COMMAND_FIRST: &str = "the command comes first: basket sets --min 2 FILE";

const NO_COMMAND: &str =
    "`basket help` explains these commands, and `basket look FILE` says what a file is";

const FORMS: &str =
    "CSV is --form baskets, with a basket in each record, or --form single, with an item in each";

const MOST_SHARE: &str = "a share is at most 100%";

/// A line of advice on words that were refused with a text, for standard error. There may be none.
pub fn words_advice(alloc: Global, text: &str, words: &[&str]) -> Result<String, AllocError> {
    let mut hints = Hints::new(alloc);
    match text {
        "basket: bad value for --min\n" => {
            hints.add(value_advice(alloc, "--min", MIN_FORMS, words)?.as_str())?;
        }
        "basket: bad value for --conf\n" => {
            hints.add(value_advice(alloc, "--conf", CONF_FORMS, words)?.as_str())?;
        }
        _ => {
            hints.add(number_advice(text))?;
            hints.add(command_advice(text))?;
            hints.add(unexpected(text, words))?;
        }
    }
    Ok(hints.into_text())
}

/// The bounds of an option's number, if the value is none. `clap` says them of other numbers.
fn number_advice(text: &str) -> &'static str {
    let Some((before, _)) = text.split_once("': invalid digit") else {
        return "";
    };
    if before.ends_with("--workers <W>") {
        "--workers takes a number of threads from 1 to 64"
    } else if before.ends_with("--pieces <P>") {
        "--pieces takes a number from 1 to 65536"
    } else if before.ends_with("--limit <L>") {
        "--limit takes a number from 1 to 4294967295"
    } else {
        ""
    }
}

/// Advice on a command that is missing, and on words that are not those of a command.
fn command_advice(text: &str) -> &'static str {
    if text.starts_with("error: 'basket' requires a subcommand") {
        NO_COMMAND
    } else if text.starts_with("error: unrecognized subcommand 'help'") {
        "`basket help` takes one command: basket help sets"
    } else if text.starts_with("basket: bad value for --form") {
        FORMS
    } else {
        ""
    }
}

/// The forms that an option takes, and what is wrong with the value that it has.
fn value_advice(
    alloc: Global,
    option: &str,
    forms: &str,
    words: &[&str],
) -> Result<String, AllocError> {
    let value = value_of(option, words).unwrap_or("");
    match Decimal::parse(value) {
        Some(decimal) => decimal_advice(alloc, forms, value, decimal),
        None => match bound(option, value) {
            "" => String::from_str(alloc, forms),
            bound => format!(in alloc; "{forms}; {bound}"),
        },
    }
}

/// How a decimal is written in the forms that an option takes.
fn decimal_advice(
    alloc: Global,
    forms: &str,
    value: &str,
    decimal: Decimal,
) -> Result<String, AllocError> {
    let (numerator, denominator) = (decimal.numerator, decimal.denominator);
    if numerator > denominator {
        return format!(in alloc; "{forms}; {MOST_SHARE}");
    }
    match decimal.percent() {
        Some(percent) => {
            format!(in alloc; "{forms}; {value} is {percent}% or {numerator}/{denominator}")
        }
        None => format!(in alloc; "{forms}; {value} is {numerator}/{denominator}"),
    }
}

/// The bound that a value breaks, if it has the form of one that is taken.
fn bound(option: &str, value: &str) -> &'static str {
    if let Some(percent) = value.strip_suffix('%') {
        return if is_whole(percent) { MOST_SHARE } else { "" };
    }
    if let Some((above, below)) = value.split_once('/') {
        return match (above.parse::<u32>(), below.parse::<u32>()) {
            (Ok(_), Ok(1..)) => MOST_SHARE,
            _ if is_whole(above) && is_whole(below) =>
                "both numbers of a share are at most 4294967295, and the second at least 1",
            _ => "",
        };
    }
    if !is_whole(value) {
        ""
    } else if option == "--conf" {
        "a number alone is no share: write a % behind it"
    } else if value.bytes().all(|byte| byte == b'0') {
        "a count is at least 1"
    } else {
        "a count is at most 1099511627775"
    }
}

fn is_whole(text: &str) -> bool {
    !text.is_empty() && text.bytes().all(|byte| byte.is_ascii_digit())
}

/// The value that the words give an option.
fn value_of<'a>(option: &str, words: &[&'a str]) -> Option<&'a str> {
    let mut is_next = false;
    for word in words {
        if is_next {
            return Some(*word);
        }
        is_next = *word == option;
        if let Some(rest) = word.strip_prefix(option)
            && let Some(value) = rest.strip_prefix("=")
        {
            return Some(value);
        }
    }
    None
}

/// Advice on a word that `clap` didn't expect. There may be none.
fn unexpected(text: &str, words: &[&str]) -> &'static str {
    let word = match text.split_once("unexpected argument '") {
        Some((_, rest)) => rest.split('\'').next().unwrap_or(""),
        None => return "",
    };
    if let [first, ..] = words
        && first.starts_with('-')
    {
        return COMMAND_FIRST;
    }
    match option_advice(word) {
        "" if !word.starts_with('-') => input_advice(words),
        "" => match before(word, words) {
            Some("--min") => MIN_FORMS,
            Some("--conf") => CONF_FORMS,
            _ => "",
        },
        advice => advice,
    }
}

/// Advice on an option that a command doesn't take.
fn option_advice(option: &str) -> &'static str {
    match option {
        "--conf" => "only `rules` takes --conf",
        "--sets" => "only `count` takes --sets",
        "--min" | "--miner" | "--limit" => ALL_SETS,
        "--support" | "--min-support" | "--minsupport" => "--min is the least support",
        "--confidence" | "--min-confidence" => "--conf is the least confidence",
        "--delimiter" | "--separator" => {
            "--sep says what separates fields: comma, semicolon, tab or pipe"
        }
        "--algorithm" => "--miner names the algorithm",
        "--threads" | "--jobs" => "--workers says how many threads share the work",
        "--lift" | "--min-lift" | "--top" | "--max-len" | "--maxlen" => {
            "the report has all that meet --min: choose among its lines"
        }
        "-o" | "--output" => "the report goes to standard output: basket .. > FILE",
        _ => "",
    }
}

/// Advice on a second file.
fn input_advice(words: &[&str]) -> &'static str {
    if words.contains(&"%") {
        "a percentage is one word, as 20%"
    } else {
        ONE_INPUT
    }
}

/// The word before the first that begins with a text.
fn before<'a>(text: &str, words: &[&'a str]) -> Option<&'a str> {
    let place = words.iter().position(|word| word.starts_with(text))?;
    words.get(place.checked_sub(1)?).copied()
}
