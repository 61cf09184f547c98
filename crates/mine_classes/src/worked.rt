//! Worked examples of the definitions, proved by computing them.
ghost use Rattle.std.specs.Prelude.{◌≡◌, [], ◌∷◌};
ghost use Rattle.basket_sets.specs.declared.minimum.Minimum.TheVariants.{Count};
ghost use Rattle.basket_ranks.specs.Codes.{coding_of};
ghost use Rattle.basket_sets.specs.Worked.{each_once, nine_baskets, set};
ghost use Rattle.mine_classes.specs.Classes.{class_of};
ghost use Rattle.mine_classes.specs.Conditional.{conditional};
ghost use Rattle.mine_classes.specs.Worked.{nine_by_rank, class_of_four};

/// The nine baskets as ranks.
pub fn nine_baskets_as_ranks()
    ensures { (coding_of nine_baskets (Count 2)).baskets ≡ nine_by_rank }
{}

/// Two baskets have rank 4, both with ranks 0 and 1. One has rank 2 too, which is rare beside 4.
/// The other ranks are not below any.
pub fn nine_baskets_below_each_rank()
    ensures four { conditional 2 nine_by_rank 4 ≡ each_once ((0 ∷ 1 ∷ []) ∷ (0 ∷ 1 ∷ []) ∷ []) }
    ensures three { conditional 2 nine_by_rank 3 ≡ each_once ((0 ∷ []) ∷ (0 ∷ []) ∷ []) }
    ensures two { conditional 2 nine_by_rank 2 ≡ each_once ((0 ∷ []) ∷ (1 ∷ []) ∷ (0 ∷ []) ∷ (1 ∷ []) ∷ (0 ∷ 1 ∷ []) ∷ (0 ∷ 1 ∷ []) ∷ []) }
    ensures one { conditional 2 nine_by_rank 1 ≡ each_once ((0 ∷ []) ∷ (0 ∷ []) ∷ [] ∷ [] ∷ (0 ∷ []) ∷ (0 ∷ []) ∷ []) }
    ensures zero { conditional 2 nine_by_rank 0 ≡ each_once ([] ∷ [] ∷ [] ∷ [] ∷ [] ∷ [] ∷ [] ∷ []) }
{}

/// The conditional database of rank 1 within that of rank 4.
pub fn four_and_one()
    ensures { conditional 2 (conditional 2 nine_by_rank 4) 1 ≡ each_once ((0 ∷ []) ∷ (0 ∷ []) ∷ []) }
{}

/// The class of rank 4 is 4 alone, and 4 with each set of ranks 0 and 1.
pub fn the_class_of_four()
    ensures { class_of nine_by_rank (Count 2) 4 ≡ class_of_four }
{}

/// At a minimum of 3 the class of rank 2, item 3, is 2 alone, 0 with 2, and 1 with 2.
pub fn the_class_of_two()
    ensures { class_of nine_by_rank (Count 3) 2 ≡ set (2 ∷ []) 6 ∷ set (0 ∷ 2 ∷ []) 4 ∷ set (1 ∷ 2 ∷ []) 4 ∷ [] }
{}
