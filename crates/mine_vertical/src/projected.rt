//! Siblings as a conditional database.
ghost use Rattle.std.specs.Prelude.{◌≡◌, ◌≤◌, ◌<◌, ◌+◌, ◌∷◌, ℕ, List, IfOk, IfSome, OnOk, false, length, map, slice_index, take};
ghost use Rattle.basket_sets.specs.Counts.{AllBelow};
ghost use Rattle.basket_sets.specs.Itemset.{IsRising};
ghost use Rattle.mine_vertical.specs.LocalBaskets.{IsNarrowed, baskets_in};
ghost use Rattle.mine_vertical.specs.Projected.{Extend, Keeps, Serves, numbers_in, ranks_in, siblings_in};
ghost use Rattle.mine_vertical.specs.Siblings.{AreKept, AreOver, AreSiblings};

use crate::joins::{Joins, Sibling};
use crate::search_scratch::{SearchScratch, reach};
use crate::siblings::Siblings;
use mine_rows::{Marks, Row};
use mine_search::Projected;
use std::alloc::{AllocError, Global};
use std::rc::Rc;

impl<'a, R: Row> Projected for Siblings<'a, R> {
    type Scratch = SearchScratch<R>;

    type Steps = Joins;

    ghost number = { λ joins. joins.number };

    ghost gives = { Extend R.stands };

    ghost ranks = { ranks_in };

    ghost serves = { Serves R.at_rest };

    ghost keeps = { Keeps R.at_rest };

    ghost straight = { λ base. false };

    fn len(&self) -> usize {
        self.kept
    }

    fn item(&self, at: usize) -> u32 {
        let number = self.list[at].number;
        self.coded.item(self.local.ranks[number as usize])
    }

    fn support(&self, at: usize) -> u64 {
        self.list[at].count()
    }

    fn projected(
        &self,
        alloc: Global,
        at: usize,
        room: &mut SearchScratch<R>,
        joins: &mut Joins,
    ) -> Result<Option<Self>, AllocError> {
        // The first sibling is joined with none.
        if at == 0 {
            return Ok(None);
        }
        let mut list = room.list(alloc);
        let kept = self.joined(alloc, at, &mut list, &mut room.marks[self.marks], joins)?;
        if kept == 0 {
            room.take_back(list);
            return Ok(None);
        }
        let Some(anew) = self.reprojected(alloc, at, &list[..kept], room)? else {
            return Ok(Some(Siblings {
                coded: self.coded,
                least: self.least,
                local: self.local.clone()?,
                marks: self.marks,
                list,
                kept,
            }));
        };
        room.take_back(list);
        Ok(Some(anew))
    }

    fn number_of(joins: &Joins) -> u64
        ensures { result ≡ joins.now.number }
    {
        joins.number()
    }

    fn is_straight(&self) -> bool {
        false
    }

    // Each database that is made anew has a list of its own, so those lists are not kept.
    fn give_back(self, room: &mut SearchScratch<R>) {
        if Rc::strong_count(&self.local) > 1 {
            room.take_back(self.list);
        }
    }

    ghost ranks_are = { λ base node gives. gives.1.ranks };

    ghost unused = { λ base room. record { outer = λ index weights low rests. rests; own = λ serves. serves } };

    ghost used_twice = { λ base first second third one two. record { outer = λ index weights low rests. two.outer index weights low (one.outer index weights low rests); own = λ serves. two.own (one.own serves) } };

    ghost lent_again = { λ base before after keeps serves. keeps.own serves };
}

impl<'a, R: Row> Siblings<'a, R> {
    /// The frequent extensions of the set with the rank at an index, which replace the first siblings
    /// of a list: its sibling is joined with each of those before it. Returns how many they are.
    fn joined(
        &self,
        alloc: Global,
        at: usize,
        list: &mut Vec<Sibling<R>>,
        marks: &mut Marks,
        joins: &mut Joins,
    ) -> Result<usize, AllocError>
        requires inside { at < self.now.kept }
        requires rows { (set : List ℕ) × AreSiblings R.stands self.now.local.value (siblings_in self.now) set }
        requires few { joins.old.number + at ≤ 18446744073709551615 }
        requires marks { R.at_rest self.now.local.value.weights marks.old }
        ensures within { IfOk result (λ kept. kept ≤ length list.new.items) }
        ensures kept { IfOk result (λ kept. (set : List ℕ) → AreSiblings R.stands self.now.local.value (siblings_in self.now) set
            → AreKept R.stands self.now.least (slice_index (numbers_in self.now) at) (take at self.now.list.items) (take kept list.new.items) (baskets_in self.now.local.value) set) }
        ensures joins { OnOk result (joins.new.number ≡ joins.old.number + at) }
        ensures marks { OnOk result (R.at_rest self.now.local.value.weights marks.new) }
    {
        let mut kept = 0;
        let weights = &self.local.weights;
        let sibling = &self.list[at];
        sibling.mark(marks, weights);
        for other in &self.list[..at] {
            reach(alloc, list, kept)?;
            let both = &mut list[kept];
            let frequent = joins.join(both, sibling, other, marks, weights, self.least)?;
            if frequent {
                kept += 1;
            }
        }
        sibling.unmark(marks, weights);
        Ok(kept)
    }

    /// Makes the database of the set with the number at an index anew, if that pays: the baskets of
    /// the set's cover, kept to the numbers of these siblings. Nothing if the row lists no cover.
    fn reprojected(
        &self,
        alloc: Global,
        at: usize,
        siblings: &[Sibling<R>],
        room: &mut SearchScratch<R>,
    ) -> Result<Option<Self>, AllocError>
        requires inside { at < self.now.kept }
        requires rows { (set : List ℕ) × AreSiblings R.stands self.now.local.value (siblings_in self.now) set }
        requires rises { IsRising (map (λ sibling. sibling.number) siblings.now) }
        requires below { AllBelow (length self.now.local.value.ranks.items) (map (λ sibling. sibling.number) siblings.now) }
        requires marks { self.now.marks < length room.old.marks.items }
        ensures same { IfOk result (λ made. IfSome made (λ inner. (inner.coded ≡ self.now.coded) × (inner.least ≡ self.now.least))) }
        ensures over { IfOk result (λ made. IfSome made (λ inner. AreOver R.stands inner.local.value (siblings_in inner))) }
        ensures narrowed { IfOk result (λ made. IfSome made (λ inner. (set : List ℕ)
            → AreSiblings R.stands self.now.local.value (siblings_in self.now) set
            → IsNarrowed self.now.local.value (slice_index (numbers_in self.now) at ∷ set) (map (λ sibling. sibling.number) siblings.now) inner.local.value)) }
        ensures served { IfOk result (λ made. IfSome made (Serves R.at_rest room.new)) }
        ensures wider { IfOk result (λ made. IfSome made (λ inner. self.now.marks < inner.marks)) }
        ensures room { OnOk result (Keeps R.at_rest self.now room.old room.new) }
    {
        let sibling = &self.list[at];
        let weights = &self.local.weights;
        let kept = siblings.len();
        if !sibling.pays_to_reproject(kept, at, weights) {
            return Ok(None);
        }
        let mut tids = Vec::new(alloc);
        let Some(cover) = sibling.cover(weights, &mut tids)? else {
            return Ok(None);
        };
        let numbers = numbers_of(alloc, siblings)?;
        let (local, list) = self.local.narrowed(alloc, cover, &numbers)?;
        let marks = self.marks + 1;
        room.add_marks(alloc, marks, &local.weights)?;
        Ok(Some(Siblings {
            coded: self.coded,
            least: self.least,
            local: Rc::new(alloc, local)?,
            marks,
            kept: list.len(),
            list,
        }))
    }
}

/// The numbers of siblings.
fn numbers_of<R: Row>(alloc: Global, siblings: &[Sibling<R>]) -> Result<Vec<u32>, AllocError>
    ensures { IfOk result (λ numbers. numbers.items ≡ map (λ sibling. sibling.number) siblings.now) }
{
    siblings.iter().map(|sibling| sibling.number).collect(alloc)
}
