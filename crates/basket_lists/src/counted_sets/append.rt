//! Adds sets of other lists.
ghost use Rattle.std.specs.Prelude.{◌≡◌, ◌<◌, ◌++◌, [], ◌∷◌, All, OnOk, map};
ghost use Rattle.basket_lists.specs.Packed.{Coding, IsKept, kept};

use crate::counted_sets::CountedSets;
use crate::counted_sets::push::{push_elsewhere, push_word};
use crate::packed::Packed;
use crate::plain::PlainSets;
use std::alloc::{AllocError, Global};

/// So many items are compared in the time in which one set is added by itself.
const ITEMS_COMPARED: usize = 512;

impl CountedSets {
    /// Adds the sets of another list: as words if both lists know the same items. Many items aren't
    /// compared for a few sets.
    pub fn append(&mut self, alloc: Global, other: CountedSets) -> Result<(), AllocError>
        ensures { OnOk result (self.new ≡ self.old ++ other) }
    {
        self.append_all(alloc, &other)
    }

    fn append_all(&mut self, alloc: Global, other: &CountedSets) -> Result<(), AllocError>
        ensures { OnOk result (self.new ≡ self.old ++ other.now) }
    {
        let few = self.known.len() / ITEMS_COMPARED;
        if other.len() >= few && self.known.is_same(&other.known) {
            return append_words(&mut self.words, &mut self.plain, &other.words, &other.plain);
        }
        self.append_each(alloc, other)
    }

    /// Adds the sets of another list one by one.
    fn append_each(&mut self, alloc: Global, other: &CountedSets) -> Result<(), AllocError>
        ensures { OnOk result (self.new ≡ self.old ++ other.now) }
    {
        for index in 0..other.len() {
            self.push(other.set(alloc, index)?, other.count(index))?;
        }
        Ok(())
    }
}

/// Adds words, and the sets that they stand for to those of another list. All are words of the same
/// coding. If no set is kept elsewhere, the words are added at once.
fn append_words(
    words: &mut Vec<Packed>,
    plain: &mut PlainSets,
    others: &[Packed],
    other_plain: &PlainSets,
) -> Result<(), AllocError>
    requires { (coding : Coding) × All (IsKept coding other_plain.now) others.now }
    ensures kept { (coding : Coding) → All (IsKept coding plain.old) words.old.items → All (IsKept coding other_plain.now) others.now
        → All (IsKept coding plain.new) words.new.items }
    ensures sets { (coding : Coding) → All (IsKept coding plain.old) words.old.items → All (IsKept coding other_plain.now) others.now
        → OnOk result (map (kept coding plain.new) words.new.items ≡ map (kept coding plain.old) words.old.items ++ map (kept coding other_plain.now) others.now) }
{
    if other_plain.is_empty() {
        return words.extend_from_slice(others);
    }
    words.reserve(others.len())?;
    for other in others {
        append_word(words, plain, *other, other_plain)?;
    }
    Ok(())
}

/// Adds a word, and the set that it stands for if that is kept in another list.
pub fn append_word(
    words: &mut Vec<Packed>,
    plain: &mut PlainSets,
    other: Packed,
    other_plain: &PlainSets,
) -> Result<(), AllocError>
    requires { (coding : Coding) × IsKept coding other_plain.now other }
    ensures kept { (coding : Coding) → All (IsKept coding plain.old) words.old.items → IsKept coding other_plain.now other
        → All (IsKept coding plain.new) words.new.items }
    ensures sets { (coding : Coding) → All (IsKept coding plain.old) words.old.items → IsKept coding other_plain.now other
        → OnOk result (map (kept coding plain.new) words.new.items ≡ map (kept coding plain.old) words.old.items ++ kept coding other_plain.now other ∷ []) }
{
    match other.plain_index() {
        None => push_word(words, other),
        Some(index) => push_elsewhere(
            words,
            plain,
            other_plain.items(index),
            other_plain.count(index),
        ),
    }
}
