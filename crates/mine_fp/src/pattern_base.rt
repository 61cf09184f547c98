//! The conditional pattern base of a set.
ghost use Rattle.std.specs.Prelude.{◌≡◌, ◌≤◌};
ghost use Rattle.std.proofs.Common.{◌∙◌, refl, subst, sym};
ghost use Rattle.mine_conditional.specs.Paths.{is_branch};
ghost use Rattle.mine_fp.specs.PatternBase.{HaveSlots, IsBase, KeepSlots, ranks_of};

use crate::trees::Trees;
use basket_core::CodedItems;
use mine_conditional::{ClassScratch, Paths};
use mine_search::Projected;
use std::alloc::{AllocError, Global};

/// The conditional pattern base of a set (Han, Pei and Yin 2000): the paths of the ranks that are
/// frequent together with it, which have numbers from 0 on there, and by number each of these ranks
/// with the support of the set with it.
pub struct PatternBase<'a> {
    pub coded: &'a CodedItems,
    pub paths: Paths,
    pub ranks: Vec<(u32, u64)>,
    pub least: u64,
}

impl Drop for PatternBase<'_> {
    fn drop(self) {
        let PatternBase {
            coded: _,
            paths: _,
            ranks: _,
            least: _,
        } = self;
    }
}

impl<'a> Projected for PatternBase<'a> {
    type Scratch = ClassScratch;

    type Steps = Trees;

    ghost number = { λ trees. trees.number };

    ghost gives = { IsBase };

    ghost ranks = { ranks_of };

    ghost serves = { HaveSlots };

    ghost keeps = { λ base. KeepSlots };

    ghost straight = { λ base. is_branch base.paths.baskets };

    fn len(&self) -> usize {
        self.ranks.len()
    }

    fn item(&self, at: usize) -> u32 {
        self.coded.item(self.ranks[at].0)
    }

    #[tactic(auto, using(std::proofs::lemmas::Grind::common_steps, crate::proofs::PatternLemmas::entry_support))]
    fn support(&self, at: usize) -> u64 {
        self.ranks[at].1
    }

    #[tactic(auto, using(std::proofs::lemmas::Grind::common_steps, crate::proofs::PatternLemmas::few_ranks, crate::proofs::PatternLemmas::none_then, crate::proofs::NumberLemmas::none_are_kept))]
    fn projected(
        &self,
        alloc: Global,
        at: usize,
        scratch: &mut ClassScratch,
        trees: &mut Trees,
    ) -> Result<Option<Self>, AllocError> {
        let below = trees.below(alloc, self, at as u32, scratch)?;
        Ok(below)
    }

    fn number_of(trees: &Trees) -> u64
        ensures { result ≡ trees.now.number }
    {
        trees.number()
    }

    #[tactic(auto, using(std::proofs::lemmas::Grind::common_steps, crate::proofs::PatternLemmas::base_is_straight))]
    fn is_straight(&self) -> bool {
        self.paths.is_branch()
    }

    fn give_back(self, scratch: &mut ClassScratch) {}

    ghost ranks_are = { λ base node is. is.ranks };

    ghost unused = { λ base scratch. (refl, refl) };

    ghost used_twice = { λ base first second third earlier later. (later.0 ∙ earlier.0, later.1 ∙ earlier.1) };

    ghost lent_again = { λ base before after kept lent. record { sums = subst (λ n. base.paths.ranks ≤ n) (sym kept.0) lent.sums; numbers = subst (λ n. base.paths.ranks ≤ n) (sym kept.1) lent.numbers } };
}
