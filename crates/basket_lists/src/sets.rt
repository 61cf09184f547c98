ghost use Rattle.std.specs.Prelude.{◌≡◌, ◌<◌, IfOk, length};
ghost use Rattle.basket_lists.specs.CountedSets.{count_at, set_at};

use crate::counted_sets::CountedSets;
use basket_sets::Counted;
use std::alloc::{AllocError, Global};
use std::marker::Model;

/// The sets of a list with their counts, one after another.
#[derive(Drop)]
pub struct Sets<'a> {
    alloc: Global,
    list: &'a CountedSets,
    index: usize,
}

impl<'a> Model for Sets<'a> {
    ghost use Rattle.std.specs.Prelude.{◌≤◌, List, length, drop};
    ghost use Rattle.basket_sets.specs.declared.counted.Counted.{Counted as Set};

    ghost Value = { List Set };

    ghost view = { λ sets. drop sets.index sets.list.now };

    ghost invariant = { λ sets. sets.index ≤ length sets.list.now };
}

impl CountedSets {
    /// The sets with their counts, one after another. If memory runs out for one, that is an error
    /// for this set, and those after it still come.
    pub fn iter(&self, alloc: Global) -> Sets<'_>
        ensures { result ≡ self.now }
    {
        Sets {
            alloc,
            list: self,
            index: 0,
        }
    }
}

impl<'a> Iterator for Sets<'a> {
    ghost use Rattle.std.specs.Iterator.{item_count};
    ghost use Rattle.basket_lists.specs.Sets.{GivesSet};

    type Item = Result<Counted, AllocError>;

    ghost next_gives = { GivesSet };

    ghost remaining = { item_count (λ left. left) };

    fn next(&mut self) -> Option<Result<Counted, AllocError>> {
        if self.index == self.list.len() {
            return None;
        }
        let index = self.index;
        self.index = index + 1;
        Some(counted(self.alloc, self.list, index))
    }
}

/// The set at an index with its count.
fn counted(alloc: Global, list: &CountedSets, index: usize) -> Result<Counted, AllocError>
    requires { index < length list.now }
    ensures { IfOk result (λ counted. counted ≡ record { set = set_at list.now index; count = count_at list.now index }) }
{
    let set = list.set(alloc, index)?;
    let count = list.count(index);
    Ok(Counted { set, count })
}
