//! Where sets stand in a list of items.
ghost use Rattle.std.specs.Prelude.{◌≡◌, IfOk, length};
ghost use Rattle.std.specs.List.{slice_range};
ghost use Rattle.basket_lists.specs.Plain.{IsWithin};

use std::alloc::AllocError;

/// A part of a list of items, from `start` up to `end`, and the count of the set that it is.
#[derive(Clone, Copy, Debug)]
pub struct SetSpan {
    pub start: u32,
    pub end: u32,
    pub count: u64,
}

impl SetSpan {
    /// The items of this part, or none if it is no part of the list.
    pub fn of<'a>(&self, items: &'a [u32]) -> &'a [u32]
        ensures { IsWithin (length items.now) self.now → result.now ≡ slice_range items.now self.now.start self.now.end }
    {
        match items.get(self.start as usize..self.end as usize) {
            Some(set) => set,
            None => &[],
        }
    }
}

/// The end of a list of items. More than 4,294,967,295 of them count as out of memory.
pub fn end_of(items: &[u32]) -> Result<u32, AllocError>
    ensures { IfOk result (λ end. end ≡ length items.now) }
{
    match u32::try_from(items.len()) {
        Ok(end) => Ok(end),
        Err(_) => Err(AllocError),
    }
}
