//! Worked examples of the definitions, proved by computing them.
ghost use Rattle.std.specs.Prelude.{◌≡◌, [], ◌∷◌};
ghost use Rattle.basket_sets.specs.Frequent.{frequent_of};
ghost use Rattle.basket_sets.specs.declared.minimum.Minimum.TheVariants.{Count, Share};
ghost use Rattle.basket_sets.specs.Worked.{nine_baskets, thirteen_sets, six_sets, weighted_baskets, weighted_sets};

/// Nine baskets have thirteen sets of support 2 or more.
pub fn nine_baskets_at_two()
    ensures { frequent_of nine_baskets (Count 2) ≡ thirteen_sets }
{}

/// 22 per cent of nine requires 2, since 1 is less than it.
pub fn nine_baskets_at_22_percent()
    ensures percent { frequent_of nine_baskets (Share (22, 100)) ≡ thirteen_sets }
    ensures boundary { frequent_of nine_baskets (Share (2, 9)) ≡ thirteen_sets }
{}

/// 23 per cent of nine requires 3.
pub fn nine_baskets_at_23_percent()
    ensures { frequent_of nine_baskets (Share (23, 100)) ≡ six_sets }
{}

/// A basket of weight 2 counts twice.
pub fn a_weight_counts()
    ensures { frequent_of weighted_baskets (Count 2) ≡ weighted_sets }
{}

/// The empty database has no frequent set.
pub fn no_basket_has_no_set()
    ensures { frequent_of [] (Count 1) ≡ [] }
{}
