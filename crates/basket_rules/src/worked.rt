//! Worked examples of the definitions, proved by computing them.
ghost use Rattle.std.specs.Prelude.{◌≡◌, [], ◌∷◌};
ghost use Rattle.basket_sets.specs.declared.minimum.Minimum.TheVariants.{Count};
ghost use Rattle.basket_sets.specs.Worked.{nine_baskets};
ghost use Rattle.basket_rules.specs.Condensed.{closed_of, maximal_of};
ghost use Rattle.basket_rules.specs.Rules.{rules_of};
ghost use Rattle.basket_rules.specs.Worked.{nine_closed, three_maximal, six_rules, ten_rules, weighted_baskets, weighted_rules};

/// Item 4 isn't closed, since the set of 2 and 4 has its count.
pub fn nine_baskets_closed()
    ensures { closed_of nine_baskets (Count 2) ≡ nine_closed }
{}

pub fn nine_baskets_maximal()
    ensures { maximal_of nine_baskets (Count 2) ≡ three_maximal }
{}

/// At a confidence of 7/10 there are six rules, one of them with two items in its consequent.
pub fn nine_baskets_rules()
    ensures { rules_of nine_baskets (Count 2) (7, 10) ≡ six_rules }
{}

/// A confidence of 4/6 is 2/3, so at 2/3 there are four more rules.
pub fn nine_baskets_rules_at_the_boundary()
    ensures { rules_of nine_baskets (Count 2) (2, 3) ≡ ten_rules }
{}

/// A basket of weight 3 counts three times.
pub fn a_weight_counts()
    ensures { rules_of weighted_baskets (Count 1) (3, 4) ≡ weighted_rules }
{}

/// Without a basket there is nothing.
pub fn no_basket_has_nothing()
    ensures closed { closed_of [] (Count 1) ≡ [] }
    ensures maximal { maximal_of [] (Count 1) ≡ [] }
    ensures rules { rules_of [] (Count 1) (0, 1) ≡ [] }
{}
