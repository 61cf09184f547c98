//! Worked inputs, proved by computing their outcome.
ghost use Rattle.std.specs.Prelude.{◌≡◌, [], ◌∷◌, Ok, Err, codes};
ghost use Rattle.mine_limit.specs.declared.fault.MineFault.TheVariants.{TooMany};
ghost use Rattle.basket_read.specs.Worked.{lines};
ghost use Rattle.basket_plan.specs.declared.layout.Form.TheVariants.{Fimi, Baskets};
ghost use Rattle.basket_plan.specs.declared.plan.Ask.TheVariants.{Items, Sets, Rules};
ghost use Rattle.basket_read.specs.declared.fault.ReadFault.TheVariants.{Byte, NotText};
ghost use Rattle.basket_outcome.specs.Outcome.{outcome};
ghost use Rattle.basket_outcome.specs.Worked.{asked, limited, nine_baskets};
ghost use Rattle.basket_outcome.specs.declared.fault.RunFault.TheVariants.{Input, Mine};

/// Each item with the number of its baskets, if these are two or more.
pub fn nine_baskets_items()
    ensures { outcome nine_baskets (asked Fimi Items 2) ≡ Ok (lines (codes "1 (6)|2 (7)|3 (6)|4 (2)|5 (2)|")) }
{}

/// Sets by their sizes, then by their items.
pub fn nine_baskets_sets()
    ensures { outcome nine_baskets (asked Fimi Sets 3) ≡ Ok (lines (codes "1 (6)|2 (7)|3 (6)|1 2 (4)|1 3 (4)|2 3 (4)|")) }
{}

/// At a confidence of 7/10 there are six rules.
pub fn nine_baskets_rules()
    ensures { outcome nine_baskets (asked Fimi (Rules (7, 10)) 2) ≡ Ok (lines (codes "5 => 1 (2) 1/1 3/2|4 => 2 (2) 1/1 9/7|5 => 2 (2) 1/1 9/7|2 5 => 1 (2) 1/1 3/2|1 5 => 2 (2) 1/1 9/7|5 => 1 2 (2) 1/1 9/4|")) }
{}

/// Names with a separator or a quote in them are quoted in the report as in the input.
pub fn quoted_names_are_quoted()
    ensures { outcome (lines (codes "\"semi, skim\",bread|bread,\"5\"\" pan\"|")) (asked Baskets Sets 1)
        ≡ Ok (lines (codes "1,\"semi, skim\"|2,bread|1,\"5\"\" pan\"|1,\"semi, skim\",bread|1,bread,\"5\"\" pan\"|")) }
{}

/// Six sets are too many if there may be five. Items are not limited.
pub fn six_sets_are_too_many()
    ensures five { outcome nine_baskets (limited Fimi Sets 3 5) ≡ Err (Mine (TooMany 5)) }
    ensures six { outcome nine_baskets (limited Fimi Sets 3 6) ≡ Ok (lines (codes "1 (6)|2 (7)|3 (6)|1 2 (4)|1 3 (4)|2 3 (4)|")) }
    ensures items { outcome nine_baskets (limited Fimi Items 3 1) ≡ Ok (lines (codes "1 (6)|2 (7)|3 (6)|")) }
{}

/// The first fault of a text is reported with the number of its line or record.
pub fn first_fault_is_told()
    ensures byte { outcome (lines (codes "1 2|3 x|4 y|")) (asked Fimi Sets 1) ≡ Err (Input (Byte 2 120)) }
    ensures no_text { outcome (97 ∷ 10 ∷ 255 ∷ 10 ∷ 254 ∷ []) (asked Baskets Items 1) ≡ Err (Input (NotText 2)) }
{}
