//! The conditional trees below a set, each counted where it is made.
ghost use Rattle.std.specs.Prelude.{◌≡◌, ◌≤◌, ◌<◌, ◌+◌, [], IfNone, IfOk, IfSome, OnOk, length, map, vec_len};
ghost use Rattle.basket_sets.specs.Counts.{AllBelow};
ghost use Rattle.mine_pairs.specs.Pairs.{named_pair, pairs_of};
ghost use Rattle.mine_fp.specs.PatternBase.{HaveSlots, IsBelow, KeepSlots};

use crate::pattern_base::PatternBase;
use mine_conditional::{ClassScratch, Paths};
use std::alloc::{AllocError, Global};

/// How many conditional trees were made. Only the call that makes one adds to it.
#[derive(Drop)]
pub struct Trees {
    number: u64,
}

impl Trees {
    /// No tree yet.
    pub fn none() -> Self
        ensures { result.number ≡ 0 }
    {
        Trees { number: 0 }
    }

    /// How many there are.
    pub fn number(&self) -> u64
        ensures { result ≡ self.now.number }
    {
        self.number
    }

    /// The pattern base of the set of a base with the rank of a number, unless no rank is frequent
    /// together with that set: its tree is the root alone then, which counts too.
    pub fn below<'a>(
        &mut self,
        alloc: Global,
        base: &PatternBase<'a>,
        number: u32,
        scratch: &mut ClassScratch,
    ) -> Result<Option<PatternBase<'a>>, AllocError>
        requires inside { number < base.now.paths.ranks }
        requires long { vec_len base.now.ranks ≡ base.now.paths.ranks }
        requires slots { HaveSlots scratch.old base.now }
        ensures none { IfOk result (λ below. IfNone below (pairs_of base.now.paths.baskets base.now.least number ≡ [])) }
        ensures below { IfOk result (λ below. IfSome below (IsBelow base.now number)) }
        ensures kept { KeepSlots scratch.old scratch.new }
        ensures trees { OnOk result (self.new.number ≡ self.old.number + 1) }
    {
        let mut ranks = base
            .paths
            .pairs(alloc, &mut scratch.sums, number, base.least)?;
        self.number = self.number.checked_add(1).ok_or(AllocError)?;
        if ranks.is_empty() {
            return Ok(None);
        }
        let numbers = &mut scratch.numbers;
        let conditional = base
            .paths
            .below(alloc, numbers, number, base.least, &ranks)?;
        let paths = Paths::of(alloc, conditional)?;
        rename(&mut ranks, &base.ranks);
        Ok(Some(PatternBase {
            paths,
            ranks,
            ..*base
        }))
    }
}

/// Replaces each number by the rank that has it.
fn rename(pairs: &mut [(u32, u64)], ranks: &[(u32, u64)])
    requires { AllBelow (length ranks.now) (map (λ pair. pair.0) pairs.old) }
    ensures { pairs.new ≡ map (named_pair (map (λ rank. rank.0) ranks.now)) pairs.old }
{
    for at in 0..pairs.len() {
        pairs[at].0 = ranks[pairs[at].0 as usize].0;
    }
}
