//! The lines of neighbouring sets, which a worker makes.
ghost use Rattle.std.specs.Prelude.{◌≡◌, ◌≤◌, ◌<◌, ◌+◌, ◌-◌, ◌*◌, ◌^◌, ◌++◌, [], IfOk, IsTrue, length};
ghost use Rattle.basket_report.specs.Lines.{set_line};
ghost use Rattle.basket_report.specs.Report.{set_of};
ghost use Rattle.basket_report.specs.LineBuffer.{HasLines};

use crate::count_texts::CountTexts;
use crate::item_text::ITEM_TEXT_ROOM;
use crate::report_size::ReportSize;
use crate::room::{LINE_ROOM, put_line};
use crate::texts::Texts;
use basket_core::{CountedSets, MOST_ITEMS};
use std::alloc::{AllocError, Global};
use std::marker::Model;

/// No buffer takes the line of a set of more items.
pub const LONGEST: usize = 1_024;

/// The lines of the sets from one index up to another, at the beginning of a room.
#[derive(Drop)]
pub struct LineBuffer {
    counts: CountTexts,
    room: Vec<u8>,
    from: usize,
    to: usize,
    /// How many bytes the lines have.
    end: usize,
}

impl Model for LineBuffer {
    ghost use Rattle.std.specs.Prelude.{◌≤◌, length, take};
    ghost use Rattle.basket_report.specs.LineBuffer.{Stretch};

    ghost Value = { Stretch };

    ghost view = { λ buffer. record { from = buffer.from; to = buffer.to; text = take buffer.end buffer.room.items; room = length buffer.room.items } };

    ghost invariant = { λ buffer. buffer.end ≤ length buffer.room.items };
}

impl LineBuffer {
    /// No lines yet. There will be this many buffers.
    pub fn new(alloc: Global, report_size: ReportSize, buffers: u32) -> Result<Self, AllocError>
        ensures { IfOk result (λ buffer. (buffer.from ≡ 0) × (buffer.to ≡ 0) × (buffer.text ≡ [])) }
    {
        Ok(LineBuffer {
            counts: report_size.counts(alloc)?,
            room: vec![in alloc; 0u8; report_size.buffer_room(buffers)]?,
            from: 0,
            to: 0,
            end: 0,
        })
    }

    /// Makes the lines of at most this many sets from an index on, and of no more than there is room
    /// for.
    pub fn fill(&mut self, texts: &Texts, sets: &CountedSets, from: usize, most: usize)
        requires { from ≤ length sets.now }
        ensures from { self.new.from ≡ from }
        ensures lines { HasLines sets.now self.new }
    {
        self.from = from;
        self.to = from;
        self.end = 0;
        let last = sets.len().min(from.saturating_add(most));
        let mut room = [0u32; MOST_ITEMS];
        for index in from..last {
            let items = sets.items(index, &mut room);
            if !self.has_room(items.len()) {
                break;
            }
            self.put(texts, items, sets.count(index));
        }
    }

    /// Whether there is room for the line of a set of this many items.
    fn has_room(&self, items: usize) -> bool
        ensures { IsTrue result → length self.now.text + ITEM_TEXT_ROOM * items + LINE_ROOM ≤ self.now.room }
    {
        items <= LONGEST && ITEM_TEXT_ROOM * items + LINE_ROOM <= self.room.len() - self.end
    }

    /// Adds the line of the next set.
    fn put(&mut self, texts: &Texts, items: &[u32], count: u64)
        requires room { length self.old.text + ITEM_TEXT_ROOM * length items.now + LINE_ROOM ≤ self.old.room }
        requires next { self.old.to < 2 ^ 64 - 1 }
        ensures { self.new ≡ record { from = self.old.from; to = self.old.to + 1; text = self.old.text ++ set_line (set_of items.now count); room = self.old.room } }
    {
        self.end = put_line(
            &mut self.room,
            self.end,
            texts,
            &mut self.counts,
            items,
            count,
        );
        self.to += 1;
    }

    /// The index of the first set.
    pub fn from(&self) -> usize
        ensures { result ≡ self.now.from }
    {
        self.from
    }

    /// The index after the last set.
    pub fn to(&self) -> usize
        ensures { result ≡ self.now.to }
    {
        self.to
    }

    /// The lines.
    pub fn text(&self) -> &[u8]
        ensures { result.now ≡ self.now.text }
    {
        &self.room[..self.end]
    }
}
