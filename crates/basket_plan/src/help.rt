//! The texts of help, and the version.

/// The version of the program, which packages and the manual page take over.
pub const VERSION: &str = "1.2.0";

/// The help of the command of a name, and for any other name that of the command line.
pub fn of(name: &str) -> &'static str {
    match name {
        "items" => ITEMS,
        "sets" => SETS,
        "closed" => CLOSED,
        "maximal" => MAXIMAL,
        "rules" => RULES,
        "count" => COUNT,
        _ => MAIN,
    }
}

/// The help of the command line without a command.
const MAIN: &str = "\
Finds what is bought together: frequent items, frequent itemsets and association rules, with
exact counts and exact fractions.

Usage: basket COMMAND --min M [OPTIONS] [FILE]
       basket rules --min M --conf C [OPTIONS] [FILE]
       basket count --sets SETS [OPTIONS] [FILE]

Commands:
  items    Lists the items that are in enough baskets
  sets     Lists the sets of items that are in enough baskets
  closed   Lists those of these sets of which no larger set has the same count
  maximal  Lists those of these sets of which no larger set is in enough baskets
  rules    Lists the rules between sets of items that hold often enough
  count    Counts the baskets that have each of the sets that you give
  look     Says what a file is, and which command mines it: `basket look FILE`

Options:
  -h, --help     Print help; `basket help COMMAND` prints the help of a command
  -V, --version  Print version

For example, the sets in at least 5% of the receipts of a CSV file with a header:
  basket sets --min 5% --form single --header receipts.csv

The input is in FILE, or on standard input if there is no FILE or it is `-`. --form says how
it is written:
  fimi        one basket on each line, the numbers of its items. A weight may come first:
              `3x` stands for three such baskets
                1 2 5
                3x 2 4
  baskets     CSV, one basket in each record, the names of its items; with --weight its
              weight comes first
                bread,milk
                \"semi, skim\",bread
  single      CSV, one item of a basket in each record: the basket's id and the item's name
                r1,bread
                r1,milk
  counts      no baskets, but sets with their counts, as `count` and `sets` write them. The
              counts of equal sets are added up, so the reports of parts may be concatenated.
              The count of the empty set is the number of all baskets
                (15)
                1 2 (7)
  csv-counts  the same in CSV: the count, then the names
                15
                7,bread,milk
In CSV, spaces and tabs at the ends of a field don't count, nor do empty names. From CSV the
report is CSV as well.

The report is the same for every miner. Time and memory differ:
  apriori     the default: for up to some 25,000 frequent sets
  eclat-bits  for more frequent sets
  fpgrowth    worth one try if eclat-bits takes over a second; seldom faster over very many baskets
  eclat-diff  as eclat-bits, by difference lists; seldom faster
  eclat       as eclat-bits, by lists of basket numbers; seldom faster";

/// The help of a command except `count`: what it does, the usage, the options of its own, what it writes.
macro_rules! help {
    ($about:literal, $usage:literal, $own:literal, $report:literal) => {
        concat!(
            $about,
            "\n\nUsage: basket ",
            $usage,
            " [OPTIONS] [FILE]

Arguments:
  [FILE]  The file of the input. Without it, or if it is -, the input is standard input

Options:
      --min M      The least count of a set: a number of baskets, as 20, or a share of all
                   baskets, as 5% or 1/200. It is required
",
            $own,
            "      --form F     How the input is written; `basket --help` shows each form
                   [possible values: fimi, baskets, single, counts, csv-counts]
                   [default: fimi]
      --sep S      What separates the fields of CSV, in the input and in the report
                   [possible values: comma, semicolon, tab, pipe] [default: comma]
      --header     Skips the first record of CSV
      --weight     With --form baskets: the first field of each record is the weight of its
                   basket, from 1 to 4294967295
      --miner A    The algorithm; `basket --help` says which one suits which data
                   [possible values: apriori, eclat, eclat-diff, eclat-bits, fpgrowth]
                   [default: apriori]
      --limit L    How many sets there may be, from 1 to 4294967295. If there are more, none
                   is written. It has no effect for `items` [default: 4294967295]
      --workers W  How many threads share the work, from 1 to 64 [default: 1]
      --pieces P   How many pieces the work is cut into, from 1 to 65536 [default: 16]
  -h, --help       Print help

",
            $report
        )
    };
}

const ITEMS: &str = help!(
    "Lists the items that are in enough baskets, each with the number of those baskets, its count.",
    "items --min M",
    "",
    "Each line has an item and, in parentheses, its count. Items stand in the order of their
numbers. From CSV the report is CSV, in the order in which the names first appear: the
count and the name.

Example:
  printf '1 2\\n2 3\\n2\\n' | basket items --min 2
  2 (3)"
);

const SETS: &str = help!(
    "Lists the sets of items that are in enough baskets, each with the number of those baskets,
its count.",
    "sets --min M",
    "",
    "Each line has the items of a set and, in parentheses, its count. Sets of one item come
first, then those of two, and so on; sets of one size stand in the order of their items'
numbers. From CSV the report is CSV: the count, then the names.

Examples:
  printf '1 2\\n2 1 3\\n2\\n' | basket sets --min 2
  1 (2)
  2 (3)
  1 2 (2)
  printf 'bread,milk\\nmilk\\n' | basket sets --min 2 --form baskets
  2,milk"
);

const CLOSED: &str = help!(
    "Lists the sets that `sets` lists and of which no larger set has the same count.",
    "closed --min M",
    "",
    "The report is written as that of `sets`. It tells the count of every frequent set: the
greatest count of a closed set that has all its items.

Example:
  printf '1 2\\n2 1 3\\n2\\n' | basket closed --min 2
  2 (3)
  1 2 (2)"
);

const MAXIMAL: &str = help!(
    "Lists the sets that `sets` lists and of which no larger set is in enough baskets.",
    "maximal --min M",
    "",
    "The report is written as that of `sets`. The frequent sets are the maximal ones and all
their subsets.

Example:
  printf '1 2\\n2 1 3\\n2\\n' | basket maximal --min 2
  1 2 (2)"
);

const RULES: &str = help!(
    "Lists the rules between sets of items whose union is in enough baskets and that hold often
enough.",
    "rules --min M --conf C",
    "      --conf C     The least confidence of a rule: a share, as 60% or 2/3. It is required
",
    "A line `1 => 2 (3) 3/4 9/8` says: 3 baskets have both items (the count). Of the baskets with
item 1, the antecedent, three in four have item 2, the consequent (the confidence). That is
nine eighths of its share of all baskets (the lift; above 1 the two are together more often
than by chance). From CSV the report is CSV: the count, the confidence, the lift, how many
names the antecedent has, its names, and those of the consequent.

Example:
  printf '1 2\\n2 1 3\\n2\\n' | basket rules --min 2 --conf 2/3
  2 => 1 (2) 2/3 1/1
  1 => 2 (2) 1/1 1/1"
);

const COUNT: &str = "\
Counts, for each set that you give, the baskets that have all its items.

Usage: basket count --sets SETS [OPTIONS] [FILE]

Arguments:
  [FILE]  The file of the input. Without it, or if it is -, the input is standard input

Options:
      --sets SETS  The file of the sets to count, or - for standard input. It is required
      --form F     How the input is written; `basket --help` shows each form
                   [possible values: fimi, baskets, single, counts, csv-counts]
                   [default: fimi]
      --sep S      What separates the fields of CSV, in SETS, the input and the report
                   [possible values: comma, semicolon, tab, pipe] [default: comma]
      --header     Skips the first record of CSV, in the input alone
      --weight     With --form baskets: the first field of each record is the weight of its
                   basket, from 1 to 4294967295
      --workers W  How many threads share the work, from 1 to 64 [default: 1]
      --pieces P   How many pieces the work is cut into, from 1 to 65536 [default: 16]
  -h, --help       Print help

SETS has one set on each line, with or without a count, as `sets` writes them; for CSV, one
record with a count and the names of a set. The report has the empty set first, with the
number of all baskets, then each set once, in the order of SETS. The reports of several parts,
concatenated, are an input of --form counts (csv-counts for CSV).

Examples:
  printf '1 2\\n2\\n4\\n' > asked
  printf '1 2\\n2 1 3\\n2\\n' | basket count --sets asked
  (3)
  1 2 (2)
  2 (3)
  4 (0)
  printf '0,milk\\n0,tea,milk\\n' > asked
  printf 'bread,milk\\nmilk\\n' | basket count --form baskets --sets asked
  2
  2,milk
  0,milk,tea";
