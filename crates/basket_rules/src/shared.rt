//! Which sets of a list have a superset in it with one item more, found by several workers.
ghost use Rattle.std.specs.Prelude.{◌≡◌, ◌≤◌, ◌<◌, IfOk, ℕ, List, length};
ghost use Rattle.std.specs.Thread.{IsSync};
ghost use Rattle.basket_rules.specs.Covered.{AreMarks, IsBetween};
ghost use Rattle.basket_sets.specs.declared.counted.Counted.{Counted};

use crate::covered::{Covering, Supersets, covered_between};
use basket_core::CountedSets;
use std::alloc::{AllocError, Global};
use std::thread::{Threads, join};

/// Fewer supersets are not worth a thread.
const LEAST: usize = 8_192;

/// Marks what `covered` marks, by about this many workers, at most 64, each of which goes over some
/// supersets.
pub fn covered_shared<R: Threads + Sync>(
    rt: &R,
    alloc: Global,
    sets: &CountedSets,
    supersets: Supersets,
    workers: u32,
) -> Result<Vec<bool>, AllocError>
    ensures { IfOk result (λ marks. AreMarks sets.now supersets (IsBetween 0 (length sets.now)) marks.items) }
{
    let covering = Covering::new(alloc, sets, supersets);
    covered_range(rt, covering, 0, sets.len(), workers.clamp(1, 64).ilog2())
}

/// Goes over the supersets from an index up to another. They are halved this many times, and a
/// thread goes over each of the pieces.
#[cycle(halves)]
fn covered_range<R: Threads + Sync>(
    rt: &R,
    covering: Covering<'_>,
    from: usize,
    end: usize,
    times: u32,
) -> Result<Vec<bool>, AllocError>
    requires ordered { from ≤ end }
    requires within { end ≤ length covering.sets.now }
    ensures { IfOk result (λ marks. AreMarks covering.entry.sets.now covering.entry.supersets (IsBetween from end) marks.items) }
{
    if times == 0 || end - from < LEAST {
        return covered_between(covering, from, end);
    }
    let middle = from + (end - from) / 2;
    let (marks, others) = both_halves(rt, covering, from, middle, end, times);
    let mut marks = marks?;
    add_marks(&mut marks, &others?);
    Ok(marks)
}

#[cycle(halves)]
fn both_halves<R: Threads + Sync>(
    rt: &R,
    covering: Covering<'_>,
    from: usize,
    middle: usize,
    end: usize,
    times: u32,
) -> (Result<Vec<bool>, AllocError>, Result<Vec<bool>, AllocError>)
    requires times { 0 < times }
    requires ordered { (from ≤ middle) × (middle ≤ end) }
    requires within { end ≤ length covering.sets.now }
    ensures marks { IfOk result.0 (λ marks. AreMarks covering.entry.sets.now covering.entry.supersets (IsBetween from middle) marks.items) }
    ensures others { IfOk result.1 (λ marks. AreMarks covering.entry.sets.now covering.entry.supersets (IsBetween middle end) marks.items) }
{
    let (alloc, sets, supersets) = (covering.alloc, covering.sets, covering.supersets);
    let (others, marks) = join(
        rt,
        || -> Result<Vec<bool>, AllocError>
            requires { IsSync R.row × (0 < times) × (middle ≤ end) × (end ≤ length sets.now) }
            ensures { IfOk result (λ marks. AreMarks sets.entry.now supersets (IsBetween middle end) marks.items) }
        {
            let half = Covering::new(alloc, sets, supersets);
            covered_range(rt, half, middle, end, times - 1)
        },
        || -> Result<Vec<bool>, AllocError>
            requires { IsSync R.row × (0 < times) × (from ≤ middle) × (middle ≤ length sets.now) }
            ensures { IfOk result (λ marks. AreMarks sets.entry.now supersets (IsBetween from middle) marks.items) }
        {
            let half = Covering::new(alloc, sets, supersets);
            covered_range(rt, half, from, middle, times - 1)
        },
    );
    (marks, others)
}

/// Marks what others are marks of too.
fn add_marks(marks: &mut [bool], others: &[bool])
    requires { length others.now ≡ length marks.old }
    ensures { (list : List Counted) (supersets : Supersets) (from middle end : ℕ) → AreMarks list supersets (IsBetween from middle) marks.old
        → AreMarks list supersets (IsBetween middle end) others.now → AreMarks list supersets (IsBetween from end) marks.new }
{
    for number in 0..marks.len() {
        if others[number] {
            marks[number] = true;
        }
    }
}
