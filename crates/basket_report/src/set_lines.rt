//! The lines of sets, which are written as they are made.
ghost use Rattle.std.specs.Prelude.{◌≡◌, ◌↔◌, ◌≤◌, ◌<◌, ◌+◌, ◌++◌, ℕ, List, Option, All, true, false, length, take, IsOk, OnErr, OnOk};
ghost use Rattle.std.specs.Io.KnownBytes.{Appends};
ghost use Rattle.basket_report.specs.Bytes.{IsWritten, TakesPrefix};
ghost use Rattle.basket_report.specs.Lines.{set_line};
ghost use Rattle.basket_report.specs.Report.{report_of, set_of};
ghost use Rattle.basket_report.specs.LineBuffer.{HasLines};
ghost use Rattle.basket_report.specs.Style.{Numbered};

use crate::buffer::{LONGEST, LineBuffer};
use crate::bytes::send_bytes;
use crate::count_text::CountText;
use crate::item_text::ITEM_TEXT_ROOM;
use crate::report_size::ReportSize;
use crate::room::put_items;
use crate::texts::Texts;
use basket_core::{CountedSets, Failed, MOST_ITEMS, Sink};
use std::alloc::{AllocError, Global};
use std::thread::{self, Threads};

/// What it takes to write the lines of sets, with a buffer for each worker. Once it is made no
/// memory is needed, so a report is written to its end unless the writer fails.
pub struct SetLines {
    texts: Texts,
    buffers: Vec<LineBuffer>,
    /// How many sets a buffer takes.
    share: usize,
}

impl Drop for SetLines {
    fn drop(self) {
        let SetLines {
            texts: _,
            buffers: _,
            share: _,
        } = self;
    }
}

impl SetLines {
    /// Nothing is written yet. At most this many workers will make the lines, fewer if they are short.
    pub fn new(alloc: Global, sets: &CountedSets, workers: u32) -> Result<Self, AllocError> {
        let report_size = ReportSize::of(sets);
        let count = report_size.buffers(workers);
        let mut buffers = Vec::with_capacity(alloc, count as usize)?;
        for _strip in 0..count {
            buffers.push(LineBuffer::new(alloc, report_size, count)?)?;
        }
        Ok(SetLines {
            texts: report_size.texts(alloc)?,
            buffers,
            share: report_size.share(count),
        })
    }

    /// Writes the lines of the sets, and flushes. If the writer fails, it has taken a prefix of
    /// them, and all if only the flush failed.
    pub fn write<R: Threads + Sync, W: Sink>(
        &mut self,
        rt: &R,
        sets: &CountedSets,
        writer: &mut W,
    ) -> Result<(), Failed>
        requires { W.has_failed writer.old ≡ false }
        ensures ok { OnOk result (Appends (W.taken writer.old) (W.taken writer.new) (report_of Numbered sets.now)) }
        ensures err { OnErr result (TakesPrefix (W.taken writer.old) (W.taken writer.new) (report_of Numbered sets.now)) }
        ensures whole { W.ends_in_flush writer.new ≡ true → Appends (W.taken writer.old) (W.taken writer.new) (report_of Numbered sets.now) }
        ensures flushed { OnOk result (W.ends_in_flush writer.new ≡ true) }
        ensures failed { (W.has_failed writer.new ≡ false) ↔ IsOk result }
    {
        let mut index = 0;
        while index < sets.len() {
            fill_buffers(rt, &mut self.buffers, &self.texts, sets, index, self.share);
            let next = send_buffers(writer, &self.buffers, sets, index);
            if next == index {
                send_set(writer, &self.texts, sets, index);
            }
            index = next.max(index + 1);
        }
        if writer.failed() {
            return Err(Failed);
        }
        writer.flush()
    }
}

/// Has each worker make the lines of this many sets, from an index on.
fn fill_buffers<R: Threads + Sync>(
    rt: &R,
    buffers: &mut [LineBuffer],
    texts: &Texts,
    sets: &CountedSets,
    index: usize,
    share: usize,
)
    ensures { All (HasLines sets.now) buffers.new }
{
    let workers = buffers.len().max(1);
    thread::for_each_mut(
        rt,
        buffers,
        workers,
        &|number, buffer: &mut LineBuffer|
            ensures { HasLines sets.entry.now buffer.exit.now }
        {
            let from = index.saturating_add(share.saturating_mul(number));
            buffer.fill(texts, sets, from.min(sets.len()), share)
        },
    );
}

/// Writes the lines of the buffers, as far as each begins where the one before ends, from an index
/// on. Returns the index after them.
fn send_buffers<W: Sink>(
    writer: &mut W,
    buffers: &[LineBuffer],
    sets: &CountedSets,
    index: usize,
) -> usize
    requires index { index ≤ length sets.now }
    requires buffers { All (HasLines sets.now) buffers.now }
    ensures index { (index ≤ result) × (result ≤ length sets.now) }
    ensures way { (start : Option (List ℕ))
        → IsWritten start (W.taken writer.old) (W.has_failed writer.old) (W.ends_in_flush writer.old) (report_of Numbered (take index sets.now))
        → IsWritten start (W.taken writer.new) (W.has_failed writer.new) (W.ends_in_flush writer.new) (report_of Numbered (take result sets.now)) }
{
    let mut next = index;
    for buffer in buffers {
        if buffer.from() != next {
            break;
        }
        send_bytes(writer, buffer.text());
        next = buffer.to();
    }
    next
}

/// Writes the line of a set that no buffer takes.
fn send_set<W: Sink>(writer: &mut W, texts: &Texts, sets: &CountedSets, index: usize)
    requires { index < length sets.now }
    ensures { (start : Option (List ℕ))
        → IsWritten start (W.taken writer.old) (W.has_failed writer.old) (W.ends_in_flush writer.old) (report_of Numbered (take index sets.now))
        → IsWritten start (W.taken writer.new) (W.has_failed writer.new) (W.ends_in_flush writer.new) (report_of Numbered (take (index + 1) sets.now)) }
{
    let mut room = [0u32; MOST_ITEMS];
    let items = sets.items(index, &mut room);
    send_line(writer, texts, items, sets.count(index));
}

/// Writes the line of a set, a limited number of items at a time.
fn send_line<W: Sink>(writer: &mut W, texts: &Texts, items: &[u32], count: u64)
    ensures { (start : Option (List ℕ)) (text : List ℕ)
        → IsWritten start (W.taken writer.old) (W.has_failed writer.old) (W.ends_in_flush writer.old) text
        → IsWritten start (W.taken writer.new) (W.has_failed writer.new) (W.ends_in_flush writer.new) (text ++ set_line (set_of items.now count)) }
{
    let mut room = [0u8; ITEM_TEXT_ROOM * LONGEST];
    let mut start = 0;
    while start < items.len() {
        let end = items.len().min(start + LONGEST);
        let text = put_items(&mut room, 0, texts, &items[start..end]);
        send_bytes(writer, &room[..text]);
        start = end;
    }
    let text = CountText::new(count);
    send_bytes(writer, &text.bytes[..text.length + 1]);
}
