//! Worked examples of parts, proved by computing them.
ghost use Rattle.std.specs.Prelude.{◌≡◌, map};
ghost use Rattle.basket_laws.specs.Parts.{counts_of_parts, said_of};
ghost use Rattle.basket_laws.specs.Worked.{asked_sets, two_lists, two_parts};
ghost use Rattle.basket_parts.specs.CombinedCounts.{frequent_in};
ghost use Rattle.basket_sets.specs.declared.minimum.Minimum.TheVariants.{Share};
ghost use Rattle.basket_sets.specs.Worked.{six_sets};

/// Nine baskets in two parts: what is counted in each, and the sets of a share of a third of all.
#[tactic(auto, using(std::proofs::lemmas::Grind::common_steps))]
pub fn nine_in_two_parts()
    ensures counts { map said_of two_lists ≡ counts_of_parts two_parts asked_sets }
    ensures whole { frequent_in two_lists (Share (1, 3)) ≡ six_sets }
{}
