//! Laws on the command line. Each is a function that does nothing: its contract is the law.
ghost use Rattle.std.specs.Prelude.{◌∷◌, [], All, codes};
ghost use Rattle.basket_plan.specs.Spelling.{IsSpelledFreely};

/// Each option asks for the same whether its value is in its word or in the next.
pub fn options_in_one_word_or_two()
    ensures minimum { IsSpelledFreely (codes "sets" ∷ []) (codes "min") }
    ensures reports { All (IsSpelledFreely (codes "sets" ∷ codes "--min=2" ∷ [])) (codes "form" ∷ codes "sep" ∷ codes "miner" ∷ codes "limit" ∷ codes "workers" ∷ codes "pieces" ∷ []) }
    ensures confidence { IsSpelledFreely (codes "rules" ∷ codes "--min=2" ∷ []) (codes "conf") }
    ensures sets { IsSpelledFreely (codes "count" ∷ []) (codes "sets") }
    ensures counts { All (IsSpelledFreely (codes "count" ∷ codes "--sets=asked" ∷ [])) (codes "form" ∷ codes "sep" ∷ codes "workers" ∷ codes "pieces" ∷ []) }
{}
