//! Closed and maximal sets.
ghost use Rattle.std.specs.Prelude.{◌≡◌, IfOk, length};
ghost use Rattle.basket_rules.specs.Condensed.{AreClosed, AreMaximal, closed_in, maximal_in};
ghost use Rattle.basket_rules.specs.Consistency.{IsConsistent};
ghost use Rattle.basket_rules.specs.Covered.{AreMarks, IsBetween};
ghost use Rattle.basket_rules.specs.declared.covered.Supersets.TheVariants.{All, SameCount};

use crate::covered::{Supersets, covered};
use crate::shared::covered_shared;
use basket_core::{CountedSets, Frequent};
use std::alloc::{AllocError, Global};
use std::thread::Threads;

/// The frequent sets of which no proper superset has the same support, in report order.
pub fn closed(alloc: Global, frequent: &Frequent) -> Result<CountedSets, AllocError>
    ensures baskets { IfOk result (λ closed. AreClosed frequent.now closed) }
    ensures lists { IfOk result (λ closed. IsConsistent frequent.now.sets → closed ≡ closed_in frequent.now.sets) }
{
    let marks = covered(alloc, frequent.sets(), Supersets::SameCount)?;
    without_same_count(alloc, frequent, &marks)
}

/// The same by about this many workers, at most 64.
pub fn closed_shared<R: Threads + Sync>(
    rt: &R,
    alloc: Global,
    frequent: &Frequent,
    workers: u32,
) -> Result<CountedSets, AllocError>
    ensures baskets { IfOk result (λ closed. AreClosed frequent.now closed) }
    ensures lists { IfOk result (λ closed. IsConsistent frequent.now.sets → closed ≡ closed_in frequent.now.sets) }
{
    let marks = covered_shared(rt, alloc, frequent.sets(), Supersets::SameCount, workers)?;
    without_same_count(alloc, frequent, &marks)
}

/// The sets without a superset of the same count.
fn without_same_count(
    alloc: Global,
    frequent: &Frequent,
    marks: &[bool],
) -> Result<CountedSets, AllocError>
    requires { AreMarks frequent.now.sets SameCount (IsBetween 0 (length frequent.now.sets)) marks.now }
    ensures baskets { IfOk result (λ closed. AreClosed frequent.now closed) }
    ensures lists { IfOk result (λ closed. IsConsistent frequent.now.sets → closed ≡ closed_in frequent.now.sets) }
{
    frequent.sets().unmarked(alloc, marks)
}

/// The frequent sets of which no proper superset is frequent, in report order.
pub fn maximal(alloc: Global, frequent: &Frequent) -> Result<CountedSets, AllocError>
    ensures baskets { IfOk result (λ maximal. AreMaximal frequent.now maximal) }
    ensures lists { IfOk result (λ maximal. IsConsistent frequent.now.sets → maximal ≡ maximal_in frequent.now.sets) }
{
    let marks = covered(alloc, frequent.sets(), Supersets::All)?;
    without_any(alloc, frequent, &marks)
}

/// The same by about this many workers, at most 64.
pub fn maximal_shared<R: Threads + Sync>(
    rt: &R,
    alloc: Global,
    frequent: &Frequent,
    workers: u32,
) -> Result<CountedSets, AllocError>
    ensures baskets { IfOk result (λ maximal. AreMaximal frequent.now maximal) }
    ensures lists { IfOk result (λ maximal. IsConsistent frequent.now.sets → maximal ≡ maximal_in frequent.now.sets) }
{
    let marks = covered_shared(rt, alloc, frequent.sets(), Supersets::All, workers)?;
    without_any(alloc, frequent, &marks)
}

/// The sets without any superset.
fn without_any(
    alloc: Global,
    frequent: &Frequent,
    marks: &[bool],
) -> Result<CountedSets, AllocError>
    requires { AreMarks frequent.now.sets All (IsBetween 0 (length frequent.now.sets)) marks.now }
    ensures baskets { IfOk result (λ maximal. AreMaximal frequent.now maximal) }
    ensures lists { IfOk result (λ maximal. IsConsistent frequent.now.sets → maximal ≡ maximal_in frequent.now.sets) }
{
    frequent.sets().unmarked(alloc, marks)
}
