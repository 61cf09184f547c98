//! Worked examples of the definitions, proved by computing them.
ghost use Rattle.std.specs.Prelude.{◌≡◌, [], ◌∷◌, map};
ghost use Rattle.basket_ranks.specs.Codes.{coding_of};
ghost use Rattle.basket_sets.specs.declared.minimum.Minimum.TheVariants.{Count};
ghost use Rattle.basket_sets.specs.Worked.{nine_baskets};
ghost use Rattle.mine_fp.specs.Trees.{class_trees, trees_of};

/// At a minimum of 2 the nine baskets take seven trees: one for each item, and those of the items 1
/// and 3 and of 2 and 3. The other six sets are read off single branches.
pub fn trees_of_the_nine_baskets()
    ensures classes { map (class_trees (coding_of nine_baskets (Count 2))) (0 ∷ 1 ∷ 2 ∷ 3 ∷ 4 ∷ []) ≡ 1 ∷ 1 ∷ 3 ∷ 1 ∷ 1 ∷ [] }
    ensures all { trees_of (coding_of nine_baskets (Count 2)) ≡ 7 }
{}
