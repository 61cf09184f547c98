//! The texts of counts that were written recently.
ghost use Rattle.std.specs.Prelude.{◌≡◌, ◌≤◌, ◌+◌, ◌++◌, [], ◌∷◌, decimal, length, IfOk};
ghost use Rattle.basket_report.specs.Room.{IsPut};

use crate::count_text::{COUNT_TEXT_ROOM, CountText};
use crate::room::put_text;
use std::alloc::{AllocError, Global};

/// How many texts are kept at most.
const MOST_SLOTS: usize = 4_096;

/// Texts of counts. The low bits of a count are a slot, which has the text of the count that was
/// written there last.
#[derive(Drop)]
pub struct CountTexts {
    slots: Vec<CountText>,
}

impl CountTexts {
    /// Nothing is written yet. There are no more slots than that.
    pub fn new(alloc: Global, bound: usize) -> Result<Self, AllocError> {
        Ok(CountTexts {
            slots: vec![in alloc; CountText::new(0); bound.min(MOST_SLOTS)]?,
        })
    }

    /// Puts a count in parentheses and a line feed into a room, and returns where they end.
    #[inline(always)]
    pub fn put(&mut self, room: &mut [u8], start: usize, count: u64) -> usize
        requires { start + COUNT_TEXT_ROOM ≤ length room.old }
        ensures put { IsPut room.old room.new start (40 ∷ decimal count ++ 41 ∷ 10 ∷ []) result }
        ensures within { result ≤ start + COUNT_TEXT_ROOM }
    {
        match self.slots.get_mut((count % MOST_SLOTS as u64) as usize) {
            Some(text) => {
                text.set(count);
                put_line_end(room, start, text)
            }
            None => put_line_end(room, start, &CountText::new(count)),
        }
    }
}

#[inline(always)]
fn put_line_end(room: &mut [u8], start: usize, text: &CountText) -> usize
    requires { start + COUNT_TEXT_ROOM ≤ length room.old }
    ensures put { IsPut room.old room.new start (40 ∷ decimal text.now.count ++ 41 ∷ 10 ∷ []) result }
    ensures within { result ≤ start + COUNT_TEXT_ROOM }
{
    put_text::<COUNT_TEXT_ROOM>(room, start, &text.bytes, text.length + 1)
}
