//! Texts that are put into a room, one after another.
ghost use Rattle.std.specs.Prelude.{◌≡◌, ◌<◌, ◌≤◌, ◌+◌, ◌*◌, ◌++◌, [], ◌∷◌, decimal, length, take};
ghost use Rattle.basket_report.specs.Lines.{items_text, set_line};
ghost use Rattle.basket_report.specs.Report.{set_of};
ghost use Rattle.basket_report.specs.Room.{IsPut};
ghost use Rattle.basket_report.specs.Texts.{AreTexts};

use crate::count_text::COUNT_TEXT_ROOM;
use crate::count_texts::CountTexts;
use crate::item_text::{ITEM_TEXT_ROOM, ItemText};
use crate::texts::Texts;
use std::simd::Simd;

/// What a line takes beside its items: a space if it has none, and the room of the text of a count.
pub const LINE_ROOM: usize = 1 + COUNT_TEXT_ROOM;

/// Puts the first bytes of a small room after the first ones of a room, and returns where they end.
/// The whole small room is loaded and stored at once, and the next text overwrites what is too
/// much.
#[inline(always)]
pub fn put_text<const N: usize>(room: &mut [u8], start: usize, text: &[u8], count: usize) -> usize
    requires text { N ≤ length text.now }
    requires room { start + N ≤ length room.old }
    requires count { count ≤ N }
    ensures put { IsPut room.old room.new start (take count text.now) result }
    ensures end { result ≡ start + count }
{
    Simd::<u8, N>::from_slice(text).copy_to_slice(&mut room[start..]);
    start + count
}

/// Puts an item and a space.
#[inline(always)]
fn put_item(room: &mut [u8], start: usize, texts: &[ItemText], item: u32) -> usize
    requires texts { AreTexts texts.now }
    requires room { start + ITEM_TEXT_ROOM ≤ length room.old }
    ensures put { IsPut room.old room.new start (decimal item ++ 32 ∷ []) result }
    ensures within { result ≤ start + ITEM_TEXT_ROOM }
{
    match texts.get(item as usize) {
        Some(text) => put_text::<ITEM_TEXT_ROOM>(room, start, &text.bytes, text.length),
        None => put_new_item(room, start, item),
    }
}

/// Puts an item whose text isn't made already, and a space. It is a call, since its locals would cost
/// the other items time.
#[inline(never)]
fn put_new_item(room: &mut [u8], start: usize, item: u32) -> usize
    requires { start + ITEM_TEXT_ROOM ≤ length room.old }
    ensures put { IsPut room.old room.new start (decimal item ++ 32 ∷ []) result }
    ensures within { result ≤ start + ITEM_TEXT_ROOM }
{
    let text = ItemText::new(item);
    put_text::<ITEM_TEXT_ROOM>(room, start, &text.bytes, text.length)
}

/// Puts items, each followed by a space.
pub fn put_items(room: &mut [u8], start: usize, texts: &Texts, items: &[u32]) -> usize
    requires { start + ITEM_TEXT_ROOM * length items.now ≤ length room.old }
    ensures put { IsPut room.old room.new start (items_text items.now) result }
    ensures within { result ≤ start + ITEM_TEXT_ROOM * length items.now }
{
    let texts = texts.all();
    let mut end = start;
    for item in items {
        end = put_item(room, end, texts, *item);
    }
    end
}

/// Puts the line of a set.
pub fn put_line(
    room: &mut [u8],
    start: usize,
    texts: &Texts,
    counts: &mut CountTexts,
    items: &[u32],
    count: u64,
) -> usize
    requires { start + ITEM_TEXT_ROOM * length items.now + LINE_ROOM ≤ length room.old }
    ensures put { IsPut room.old room.new start (set_line (set_of items.now count)) result }
    ensures within { result ≤ start + ITEM_TEXT_ROOM * length items.now + LINE_ROOM }
{
    let end = put_items(room, start, texts, items);
    counts.put(room, end, count)
}
