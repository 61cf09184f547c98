//! The class call.
ghost use Rattle.std.specs.Prelude.{◌≡◌, ◌<◌, IfOk, false, length};
ghost use Rattle.mine_vertical.specs.Joins.{class_joins};
ghost use Rattle.mine_classes.specs.Mined.{MinesClass, RanksAreFrequent};
ghost use Rattle.mine_conditional.specs.ClassScratch.{IsScratchOf};

use crate::joins::Joins;
use crate::search_scratch::SearchScratch;
use crate::siblings::{Siblings, class_siblings};
use crate::vertical::Vertical;
use basket_core::CountedSets;
use mine_conditional::ClassScratch;
use mine_limit::{MineFault, Tally};
use mine_rows::Row;
use mine_search::Class;
use std::alloc::Global;
use std::rc::Rc;

/// The frequent sets of a class, those whose greatest rank is the rank, as items, and how many
/// joins were made for them (Zaki 2000). Each set is reported to the tally once it is known to be
/// frequent. `TooMany` comes if the tally is over, or the class is longer than its limit.
pub fn eclat_class<R: Row, T: Tally>(
    alloc: Global,
    vertical: &Vertical<'_>,
    rank: u32,
    tally: &mut T,
) -> Result<(CountedSets, u64), MineFault>
    requires rank { rank < length vertical.now.items }
    requires going { T.is_over tally.old ≡ false }
    ensures class { MinesClass T.told_of T.limit_of T.is_over vertical.now rank tally.old tally.new result }
    ensures joins { IfOk result (λ mined. RanksAreFrequent vertical.now → mined.1 ≡ class_joins vertical.now rank) }
{
    let mut scratch = ClassScratch::new(alloc, vertical.coded().ranks())?;
    eclat_class_with::<R, T>(alloc, vertical, &mut scratch, rank, tally)
}

/// The class of a rank as `eclat_class` finds it, with scratch memory that is used again from class to
/// class.
pub fn eclat_class_with<R: Row, T: Tally>(
    alloc: Global,
    vertical: &Vertical<'_>,
    scratch: &mut ClassScratch,
    rank: u32,
    tally: &mut T,
) -> Result<(CountedSets, u64), MineFault>
    requires rank { rank < length vertical.now.items }
    requires scratch { IsScratchOf (length vertical.now.items) scratch.old }
    requires going { T.is_over tally.old ≡ false }
    ensures class { MinesClass T.told_of T.limit_of T.is_over vertical.now rank tally.old tally.new result }
    ensures joins { IfOk result (λ mined. RanksAreFrequent vertical.now → mined.1 ≡ class_joins vertical.now rank) }
    ensures scratch { IsScratchOf (length vertical.now.items) scratch.new }
{
    let coded = vertical.coded();
    let least = vertical.least();
    let runs = vertical.runs();
    let support = runs.support(rank);
    if support < least {
        let none = vertical.empty().empty_like(alloc)?;
        return Ok((none, 0));
    }
    let mut joins = Joins::none();
    let (local, siblings) = class_siblings::<R>(alloc, runs, scratch, &mut joins, rank, least)?;
    let mut room = SearchScratch::new(alloc);
    room.add_marks(alloc, 0, &local.weights)?;
    let below = Siblings {
        coded,
        least,
        local: Rc::new(alloc, local)?,
        marks: 0,
        kept: siblings.len(),
        list: siblings,
    };
    let class = Class {
        rank,
        support,
        below: Some(below),
        steps: joins,
    };
    class.list(alloc, coded, vertical.empty(), &mut room, tally)
}
