//! Which sets of a list have a superset in it with one item more.
ghost use Rattle.std.specs.Prelude.{◌≡◌, ◌≤◌, ◌<◌, ◌+◌, IfOk, IfSome, IfNone, IsTrue, ◌↔◌, ◌⊎◌, ℕ, length};
ghost use Rattle.basket_lists.specs.Without.{AreIndexesWithout};
ghost use Rattle.basket_lists.specs.declared.known.TheConstants.{MOST_ITEMS};
ghost use Rattle.basket_rules.specs.Covered.{AreMarks, IsBetween, Matters};
ghost use Rattle.basket_rules.specs.Listed.{set_at};
ghost use Rattle.basket_rules.specs.Search.{IsMissing};
ghost use Rattle.basket_sets.specs.Itemset.{without};

use crate::listed::items_at;
use crate::search::find_near;
use basket_core::CountedSets;
use basket_lists::MOST_ITEMS;
use basket_order::{IndexTable, NOWHERE};
use std::alloc::{AllocError, Global};

/// Which supersets matter.
#[derive(Clone, Copy, Debug)]
pub enum Supersets {
    All,
    SameCount,
}

impl Supersets {
    /// Whether a set with this count is marked, given its mark so far and the count of a superset.
    fn marked(self, mark: bool, count: u64, above: u64) -> bool
        ensures { IsTrue result ↔ (IsTrue mark ⊎ Matters self count above) }
    {
        match self {
            Supersets::All => true,
            Supersets::SameCount => mark || above == count,
        }
    }
}

/// The sets of a list, and which of their supersets matter.
#[derive(Clone, Copy)]
pub struct Covering<'a> {
    pub alloc: Global,
    pub sets: &'a CountedSets,
    pub supersets: Supersets,
}

impl<'a> Covering<'a> {
    pub fn new(alloc: Global, sets: &'a CountedSets, supersets: Supersets) -> Self
        ensures sets { result.sets ≡ sets.entry }
        ensures supersets { result.supersets ≡ supersets }
    {
        Covering {
            alloc,
            sets,
            supersets,
        }
    }
}

/// Marks the sets of the list of which some superset with one item more is in the list, and
/// matters.
pub fn covered(
    alloc: Global,
    sets: &CountedSets,
    supersets: Supersets,
) -> Result<Vec<bool>, AllocError>
    ensures { IfOk result (λ marks. AreMarks sets.now supersets (IsBetween 0 (length sets.now)) marks.items) }
{
    covered_between(Covering::new(alloc, sets, supersets), 0, sets.len())
}

/// Goes over the supersets from an index up to another, those of one size together.
pub fn covered_between(
    covering: Covering<'_>,
    from: usize,
    end: usize,
) -> Result<Vec<bool>, AllocError>
    requires ordered { from ≤ end }
    requires within { end ≤ length covering.sets.now }
    ensures { IfOk result (λ marks. AreMarks covering.entry.sets.now covering.entry.supersets (IsBetween from end) marks.items) }
{
    let sets = covering.sets;
    let mut marks = vec![in covering.alloc; false; sets.len()]?;
    let mut start = from;
    while start < end {
        let size = sets.size(start);
        let first = sets.start_of_size(size.saturating_sub(1));
        let last = sets.start_of_size(size);
        let below = sets.index_table(covering.alloc, first, last)?;
        let next = sets
            .start_of_size(size.saturating_add(1))
            .clamp(start + 1, end);
        mark_below(covering, &below, start, next, &mut marks);
        start = next;
    }
    Ok(marks)
}

/// Marks the sets that are those from `start` up to `end` without one of their items.
fn mark_below(
    covering: Covering<'_>,
    below: &IndexTable,
    start: usize,
    end: usize,
    marks: &mut [bool],
)
    requires ordered { start ≤ end }
    requires within { end ≤ length covering.sets.now }
    requires long { length marks.old ≡ length covering.sets.now }
    ensures { (from : ℕ) → AreMarks covering.entry.sets.now covering.entry.supersets (IsBetween from start) marks.old
        → AreMarks covering.entry.sets.now covering.entry.supersets (IsBetween from end) marks.new }
{
    let mut found = [NOWHERE; MOST_ITEMS];
    let mut hint = 0;
    for number in start..end {
        covering.sets.indexes_without(below, number, &mut found);
        mark_subsets(covering, &found, number, &mut hint, marks);
    }
}

/// Marks the sets that are one set without one of its items.
fn mark_subsets(
    covering: Covering<'_>,
    found: &[u32; MOST_ITEMS],
    number: usize,
    hint: &mut usize,
    marks: &mut [bool],
)
    requires listed { number < length covering.sets.now }
    requires found { AreIndexesWithout covering.sets.now (set_at covering.sets.now number) MOST_ITEMS found.now }
    requires long { length marks.old ≡ length covering.sets.now }
    ensures long { length marks.new ≡ length marks.old }
    ensures marked { (from : ℕ) → AreMarks covering.entry.sets.now covering.entry.supersets (IsBetween from number) marks.old
        → AreMarks covering.entry.sets.now covering.entry.supersets (IsBetween from (number + 1)) marks.new }
{
    let Covering {
        sets,
        supersets,
        ..
    } = covering;
    let count = sets.count(number);
    for index in 0..sets.size(number) {
        if let Some(at) = find_below(sets, found, number, index, hint) {
            marks[at] = supersets.marked(marks[at], sets.count(at), count);
        }
    }
}

/// The index of the set at `number` without the item at the index.
fn find_below(
    sets: &CountedSets,
    found: &[u32; MOST_ITEMS],
    number: usize,
    index: usize,
    hint: &mut usize,
) -> Option<usize>
    requires listed { number < length sets.now }
    requires index { index < length (set_at sets.now number) }
    requires found { AreIndexesWithout sets.now (set_at sets.now number) MOST_ITEMS found.now }
    ensures bound { IfSome result (λ at. at < length sets.now) }
    ensures found { IfSome result (λ at. set_at sets.now at ≡ without index (set_at sets.now number)) }
    ensures missing { IfNone result (IsMissing sets.now (without index (set_at sets.now number))) }
{
    if index < MOST_ITEMS && found[index] != NOWHERE {
        return Some(found[index] as usize);
    }
    search_below(sets, number, index, hint)
}

/// Looks for the set at `number` without the item at the index in the list. The search begins at
/// the hint, which then becomes the index.
#[inline(never)]
fn search_below(sets: &CountedSets, number: usize, index: usize, hint: &mut usize) -> Option<usize>
    requires listed { number < length sets.now }
    requires index { index < length (set_at sets.now number) }
    ensures bound { IfSome result (λ at. at < length sets.now) }
    ensures found { IfSome result (λ at. set_at sets.now at ≡ without index (set_at sets.now number)) }
    ensures missing { IfNone result (IsMissing sets.now (without index (set_at sets.now number))) }
{
    let mut room = [0; MOST_ITEMS];
    let items = items_at(sets, number, &mut room);
    let found = find_near(sets, &items[..index], &items[index + 1..], *hint);
    *hint = found.unwrap_or(*hint);
    found
}
