//! Worked examples of the definitions, proved by computing them.
ghost use Rattle.std.specs.Prelude.{◌≡◌};
ghost use Rattle.basket_core.specs.Fraction.{lowest};

/// Zero is 0/1.
pub fn fractions_in_lowest_terms()
    ensures some { lowest 18 8 ≡ record { numerator = 9; denominator = 4 } }
    ensures one { lowest 36 36 ≡ record { numerator = 1; denominator = 1 } }
    ensures zero { lowest 0 5 ≡ record { numerator = 0; denominator = 1 } }
    ensures lowest { lowest 7 10 ≡ record { numerator = 7; denominator = 10 } }
{}
