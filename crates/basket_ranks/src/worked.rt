//! Worked examples of the definitions, proved by computing them.
ghost use Rattle.std.specs.Prelude.{◌≡◌, [], ◌∷◌};
ghost use Rattle.basket_ranks.specs.Codes.{coded, decoded, ranks_of};
ghost use Rattle.basket_sets.specs.declared.minimum.Minimum.TheVariants.{Count};
ghost use Rattle.basket_sets.specs.Worked.{nine_baskets};

/// Item 2 has the greatest support. Items 1 and 3 have one support, and so have 4 and 5.
pub fn nine_baskets_by_rank()
    ensures ranks { ranks_of nine_baskets (Count 2) ≡ 2 ∷ 1 ∷ 3 ∷ 4 ∷ 5 ∷ [] }
    ensures frequent { ranks_of nine_baskets (Count 3) ≡ 2 ∷ 1 ∷ 3 ∷ [] }
    ensures coded { coded (2 ∷ 1 ∷ 3 ∷ 4 ∷ 5 ∷ []) (1 ∷ 2 ∷ 5 ∷ []) ≡ 0 ∷ 1 ∷ 4 ∷ [] }
    ensures decoded { decoded (2 ∷ 1 ∷ 3 ∷ 4 ∷ 5 ∷ []) (0 ∷ 1 ∷ 4 ∷ []) ≡ 1 ∷ 2 ∷ 5 ∷ [] }
{}
