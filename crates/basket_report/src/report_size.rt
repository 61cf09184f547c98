//! What is known of sets before their lines are written.
use crate::count_texts::CountTexts;
use crate::texts::Texts;
use basket_core::CountedSets;
use std::alloc::{AllocError, Global};

/// No more texts are made than this.
const MOST_TEXTS: usize = 65_536;

/// Room for what a line has beside its items: two parentheses, a space, a line feed and most counts.
const COUNT_ROOM: usize = 10;

/// A buffer has room for at least this many bytes, which take the line of a set of `LONGEST` items.
const LEAST_STRIP: usize = 65_536;

/// A buffer has room for at most this many bytes, so that threads live long compared with what it
/// takes to start them.
const MOST_STRIP: usize = 524_288;

#[derive(Clone, Copy)]
pub struct ReportSize {
    lines: usize,
    /// The items of all lines.
    items: usize,
    greatest: u32,
}

impl ReportSize {
    pub fn of(sets: &CountedSets) -> Self {
        ReportSize {
            lines: sets.len(),
            items: sets.item_count(),
            greatest: sets.greatest_item(),
        }
    }

    /// The texts of the items, but not of more numbers than there are lines.
    pub fn texts(self, alloc: Global) -> Result<Texts, AllocError> {
        let bound = (self.greatest as usize + 1).min(self.lines).min(MOST_TEXTS);
        Texts::below(alloc, bound as u32)
    }

    /// Slots for the texts of counts, but not more than there are lines.
    pub fn counts(self, alloc: Global) -> Result<CountTexts, AllocError> {
        CountTexts::new(alloc, self.lines)
    }

    /// How long the report is, unless counts are very large.
    pub fn room(self) -> usize {
        let digits = self.greatest.checked_ilog10().unwrap_or(0) as usize + 1;
        let counts = self.lines.saturating_mul(COUNT_ROOM);
        self.items.saturating_mul(digits + 1).saturating_add(counts)
    }

    /// How many buffers are worth a thread each, of this many: as many as the report half fills.
    pub fn buffers(self, workers: u32) -> u32 {
        let most = self.room() / (LEAST_STRIP / 2) + 1;
        most.min(workers as usize) as u32
    }

    /// How many bytes each of this many buffers has room for: twice its part of the report, within
    /// bounds.
    pub fn buffer_room(self, buffers: u32) -> usize {
        (self.room() / buffers.max(1) as usize)
            .saturating_mul(2)
            .clamp(LEAST_STRIP, MOST_STRIP)
    }

    /// How many sets each of this many buffers takes at once: those whose lines fill half of it if
    /// they are like most, so that few have more lines than it has room for.
    pub fn share(self, buffers: u32) -> usize {
        let line = (self.room() / self.lines.max(1)).max(1);
        (self.buffer_room(buffers) / 2 / line).max(1)
    }
}
