//! Scratch memory that a class uses again from join to join.
ghost use Rattle.std.specs.Prelude.{◌≡◌, ◌≤◌, ◌<◌, ◌++◌, [], ◌∷◌, IfOk, OnOk, length, take};

use crate::joins::Sibling;
use mine_rows::{Marks, Row, Weights};
use std::alloc::{AllocError, Global};

/// Marks, one for each database that the search is within, and lists of siblings that are not needed
/// any more.
#[derive(Drop)]
pub struct SearchScratch<R> {
    pub marks: Vec<Marks>,
    pub lists: Vec<Vec<Sibling<R>>>,
}

impl<R: Row> SearchScratch<R> {
    /// No marks and no lists.
    pub fn new(alloc: Global) -> Self
        ensures { result.marks.items ≡ [] }
    {
        SearchScratch {
            marks: Vec::new(alloc),
            lists: Vec::new(alloc),
        }
    }

    /// Marks over the weights of a database, beside those of so many databases that it lies within.
    pub fn add_marks(
        &mut self,
        alloc: Global,
        outer: usize,
        weights: &Weights,
    ) -> Result<(), AllocError>
        requires { outer ≤ length self.old.marks.items }
        ensures { OnOk result ((marks : Marks) × R.at_rest weights.now marks × (self.new.marks.items ≡ take outer self.old.marks.items ++ marks ∷ [])) }
    {
        let marks = R::new_marks(alloc, weights)?;
        self.marks.truncate(outer);
        self.marks.push(marks)?;
        Ok(())
    }

    /// A list whose siblings may be written over.
    pub fn list(&mut self, alloc: Global) -> Vec<Sibling<R>>
        ensures { self.new.marks ≡ self.old.marks }
    {
        match self.lists.pop() {
            Some(list) => list,
            None => Vec::new(alloc),
        }
    }

    /// Takes a list back, if there is memory for that.
    pub fn take_back(&mut self, list: Vec<Sibling<R>>)
        ensures { self.new.marks ≡ self.old.marks }
    {
        let _ = self.lists.push(list);
    }
}

/// Makes sure that a list has a sibling at an index.
pub fn reach<R: Row>(alloc: Global, list: &mut Vec<Sibling<R>>, at: usize) -> Result<(), AllocError>
    requires { at ≤ length list.old.items }
    ensures within { OnOk result (at < length list.new.items) }
    ensures before { OnOk result (take at list.new.items ≡ take at list.old.items) }
{
    if at == list.len() {
        list.push(Sibling::empty(alloc))?;
    }
    Ok(())
}
