//! Worked examples of the definitions, proved by computing them.
ghost use Rattle.std.specs.Prelude.{◌≡◌, [], ◌∷◌};
ghost use Rattle.basket_sets.specs.declared.minimum.Minimum.TheVariants.{Count};
ghost use Rattle.basket_sets.specs.Worked.{each_once, nine_baskets};
ghost use Rattle.mine_apriori.specs.Candidates.{candidates_of};
ghost use Rattle.mine_apriori.specs.Work.{all_candidates, candidate_count};

/// Of the joins of six pairs only two have all pairs in the list.
pub fn six_pairs_make_two_candidates()
    ensures { candidates_of ((1 ∷ 2 ∷ []) ∷ (1 ∷ 3 ∷ []) ∷ (1 ∷ 5 ∷ []) ∷ (2 ∷ 3 ∷ []) ∷ (2 ∷ 4 ∷ []) ∷ (2 ∷ 5 ∷ []) ∷ [])
        ≡ (1 ∷ 2 ∷ 3 ∷ []) ∷ (1 ∷ 2 ∷ 5 ∷ []) ∷ [] }
{}

/// No set makes no candidate.
pub fn no_set_makes_no_candidate()
    ensures { candidates_of [] ≡ [] }
{}

/// Every pair of single items is a candidate.
pub fn items_make_all_pairs()
    ensures { candidates_of ((1 ∷ []) ∷ (2 ∷ []) ∷ (3 ∷ []) ∷ []) ≡ (1 ∷ 2 ∷ []) ∷ (1 ∷ 3 ∷ []) ∷ (2 ∷ 3 ∷ []) ∷ [] }
{}

/// The nine baskets have five frequent items, which make ten pairs, and two candidates of three.
pub fn nine_baskets_have_twelve_candidates()
    ensures { candidate_count nine_baskets (Count 2) ≡ 12 }
{}

/// Items 1 and 2 are never together, so that 1, 2 and 3 are no candidate.
pub fn three_items_have_three_candidates()
    ensures { all_candidates (each_once ((1 ∷ []) ∷ (1 ∷ []) ∷ (2 ∷ []) ∷ (2 ∷ []) ∷ (1 ∷ 3 ∷ []) ∷ (2 ∷ 3 ∷ []) ∷ [])) (Count 1)
        ≡ (1 ∷ 2 ∷ []) ∷ (1 ∷ 3 ∷ []) ∷ (2 ∷ 3 ∷ []) ∷ [] }
{}
