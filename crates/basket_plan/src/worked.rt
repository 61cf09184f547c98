//! Worked examples of the command line, proved by computing them.
ghost use Rattle.std.specs.Prelude.{◌≡◌, ◌∷◌, [], codes, false, true};
ghost use Rattle.basket_plan.specs.Command.{asks_help, invocation_of_words, reporting};
ghost use Rattle.basket_plan.specs.declared.invocation.Task.TheVariants.{Count as Counting};
ghost use Rattle.basket_plan.specs.Plan.{GREATEST_LIMIT};
ghost use Rattle.basket_plan.specs.declared.plan.Ask.TheVariants.{Items, Sets};
ghost use Rattle.basket_plan.specs.declared.layout.Form.TheVariants.{Fimi, Baskets, Counts};
ghost use Rattle.basket_plan.specs.declared.plan.Miner.TheVariants.{Apriori};
ghost use Rattle.basket_sets.specs.declared.minimum.Minimum.TheVariants.{Count, Share};

/// `sets --min 2` asks for the sets of count 2, with the default limit and miner.
pub fn sets_at_two()
    ensures { invocation_of_words (codes "sets" ∷ codes "--min" ∷ codes "2" ∷ [])
        ≡ reporting None (record { question = record { ask = Sets; minimum = Count 2; limit = GREATEST_LIMIT; layout = record { form = Fimi; separator = 44; header = false; weighted = false } }; miner = Apriori; workers = 1; pieces = 16 }) }
{}

/// `items --limit=5 --min 5% shop.dat` asks for the items of a share of 5 in 100 of a file.
pub fn items_at_a_share()
    ensures { invocation_of_words (codes "items" ∷ codes "--limit=5" ∷ codes "--min" ∷ codes "5%" ∷ codes "shop.dat" ∷ [])
        ≡ reporting (Some (codes "shop.dat")) (record { question = record { ask = Items; minimum = Share (5, 100); limit = 5; layout = record { form = Fimi; separator = 44; header = false; weighted = false } }; miner = Apriori; workers = 1; pieces = 16 }) }
{}

/// `sets --form baskets --sep semicolon --weight --min 2` asks for sets of names.
pub fn sets_of_names()
    ensures { invocation_of_words (codes "sets" ∷ codes "--form" ∷ codes "baskets" ∷ codes "--sep" ∷ codes "semicolon" ∷ codes "--weight" ∷ codes "--min" ∷ codes "2" ∷ [])
        ≡ reporting None (record {
          question = record { ask = Sets; minimum = Count 2; limit = GREATEST_LIMIT; layout = record { form = Baskets; separator = 59; header = false; weighted = true } };
          miner = Apriori;
          workers = 1;
          pieces = 16;
        }) }
{}

/// `count --sets asked --form counts --workers 4 -` asks for counts of the sets of a file over counts from
/// standard input.
pub fn counts_of_counts()
    ensures { invocation_of_words (codes "count" ∷ codes "--sets" ∷ codes "asked" ∷ codes "--form" ∷ codes "counts" ∷ codes "--workers" ∷ codes "4" ∷ codes "-" ∷ [])
        ≡ Some (record { task = Counting (record { layout = record { form = Counts; separator = 44; header = false; weighted = false }; workers = 4; pieces = 16 }) (Some (codes "asked")); input = None }) }
{}

/// `count --form baskets --sep tab --header --sets asked` asks for counts of sets of names.
pub fn counts_of_names()
    ensures { invocation_of_words (codes "count" ∷ codes "--form" ∷ codes "baskets" ∷ codes "--sep" ∷ codes "tab" ∷ codes "--header" ∷ codes "--sets" ∷ codes "asked" ∷ [])
        ≡ Some (record { task = Counting (record { layout = record { form = Baskets; separator = 9; header = true; weighted = false }; workers = 1; pieces = 16 }) (Some (codes "asked")); input = None }) }
{}

/// Words that make no plan.
pub fn no_plan()
    ensures empty { invocation_of_words [] ≡ None }
    ensures no_minimum { invocation_of_words (codes "items" ∷ []) ≡ None }
    ensures bad_minimum { invocation_of_words (codes "items" ∷ codes "--min" ∷ codes "0" ∷ []) ≡ None }
    ensures bad_limit { invocation_of_words (codes "sets" ∷ codes "--min" ∷ codes "2" ∷ codes "--limit" ∷ codes "0" ∷ []) ≡ None }
    ensures no_form { invocation_of_words (codes "sets" ∷ codes "--min" ∷ codes "2" ∷ codes "--form" ∷ codes "csv" ∷ []) ≡ None }
    ensures no_miner { invocation_of_words (codes "sets" ∷ codes "--min" ∷ codes "2" ∷ codes "--miner" ∷ codes "fp" ∷ []) ≡ None }
    ensures no_sets { invocation_of_words (codes "count" ∷ codes "baskets.dat" ∷ []) ≡ None }
    ensures both_standard { invocation_of_words (codes "count" ∷ codes "--sets" ∷ codes "-" ∷ []) ≡ None }
    ensures two_files { invocation_of_words (codes "sets" ∷ codes "--min" ∷ codes "2" ∷ codes "a" ∷ codes "b" ∷ []) ≡ None }
    ensures twice { invocation_of_words (codes "sets" ∷ codes "--min" ∷ codes "2" ∷ codes "--min" ∷ codes "3" ∷ []) ≡ None }
{}

/// `sets --help`, `help sets` and `help` ask for help and `--version` for the version, and `sets` alone
/// makes a mistake.
pub fn help_of_sets()
    ensures plan { invocation_of_words (codes "sets" ∷ codes "--help" ∷ []) ≡ None }
    ensures help { asks_help (codes "sets" ∷ codes "--help" ∷ []) ≡ true }
    ensures help_word { asks_help (codes "help" ∷ codes "sets" ∷ []) ≡ true }
    ensures help_alone { asks_help (codes "help" ∷ []) ≡ true }
    ensures version { asks_help (codes "--version" ∷ []) ≡ true }
    ensures mistake { asks_help (codes "sets" ∷ []) ≡ false }
{}
