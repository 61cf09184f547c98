//! The sets of a list that aren't marked.
ghost use Rattle.std.specs.Prelude.{◌≡◌, All, IfOk, length, map};
ghost use Rattle.basket_lists.specs.CountedSets.{AreUnmarked};
ghost use Rattle.basket_lists.specs.Packed.{Coding, IsKept, kept};

use crate::counted_sets::CountedSets;
use crate::counted_sets::append::append_word;
use crate::packed::Packed;
use crate::plain::PlainSets;
use std::alloc::{AllocError, Global};

impl CountedSets {
    /// The sets that aren't marked, in a list of their own, of which the same items are known.
    pub fn unmarked(&self, alloc: Global, marks: &[bool]) -> Result<Self, AllocError>
        requires { length marks.now ≡ length self.now }
        ensures { IfOk result (AreUnmarked self.now marks.now) }
    {
        let (words, plain) = unmarked_words(alloc, &self.words, &self.plain, marks)?;
        Ok(CountedSets {
            known: self.known.shared()?,
            words,
            plain,
        })
    }
}

/// The words that aren't marked, and the sets that they stand for. All are words of the same coding.
fn unmarked_words(
    alloc: Global,
    others: &[Packed],
    other_plain: &PlainSets,
    marks: &[bool],
) -> Result<(Vec<Packed>, PlainSets), AllocError>
    requires coded { (coding : Coding) × All (IsKept coding other_plain.now) others.now }
    requires marked { length marks.now ≡ length others.now }
    ensures kept { (coding : Coding) → All (IsKept coding other_plain.now) others.now → IfOk result (λ words. All (IsKept coding words.1) words.0.items) }
    ensures sets { (coding : Coding) → All (IsKept coding other_plain.now) others.now
        → IfOk result (λ words. AreUnmarked (map (kept coding other_plain.now) others.now) marks.now (map (kept coding words.1) words.0.items)) }
{
    let mut words = Vec::new(alloc);
    let mut plain = PlainSets::new(alloc);
    for index in 0..others.len() {
        if !marks[index] {
            append_word(&mut words, &mut plain, others[index], other_plain)?;
        }
    }
    Ok((words, plain))
}
