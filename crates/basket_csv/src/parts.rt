//! Texts that workers read side by side.
ghost use Rattle.std.specs.Prelude.{◌≡◌, ◌<◌, ◌≤◌, length, take, drop};
ghost use Rattle.basket_read.specs.Fimi.{MOST_BYTES};
ghost use Rattle.basket_csv.specs.Parts.{IsCut};

use basket_read::MAX_BYTES;

/// A shorter text is not worth a thread.
const LEAST: usize = 65_536;

/// How many parts of pairs are read at once at most. Each has its own ids, and all may have the same, so more
/// parts could take much more memory than one.
const PARTS_OF_PAIRS: u32 = 4;

/// A part begins as a text does, so it must not begin with a mark.
const MARK: [u8; 3] = [0xEF, 0xBB, 0xBF];

/// How many parts of some bytes so many workers read, at most 64. Too many bytes are one part.
pub fn parts_of(bytes: &[u8], workers: u32) -> usize
    ensures { 2 ≤ result → length bytes.now ≤ MOST_BYTES }
{
    if bytes.len() > MAX_BYTES {
        return 1;
    }
    (workers.min(64) as usize).min(bytes.len() / LEAST)
}

/// How many parts of some bytes with a pair in each record so many workers read. If ids are mixed,
/// most parts have most of them, and to put these together takes longer than the parts save.
pub fn parts_of_pairs(bytes: &[u8], separator: u8, workers: u32) -> usize
    ensures { 2 ≤ result → length bytes.now ≤ MOST_BYTES }
{
    let count = parts_of(bytes, workers.min(PARTS_OF_PAIRS));
    if count < 2 || stand_together(bytes, separator) {
        count
    } else {
        1
    }
}

/// Whether at least half of the lines at the beginning have the id of the line before. It is a guess, of
/// which nothing is claimed.
fn stand_together(bytes: &[u8], separator: u8) -> bool {
    let (looked, _) = bytes.split_at(bytes.len().min(LEAST));
    let mut last: &[u8] = &[];
    let mut again: u32 = 0;
    let mut others: u32 = 0;
    for line in looked.split(|byte| *byte == b'\n') {
        let id = id_of(line, separator);
        if id == last {
            again = again.saturating_add(1);
        } else {
            others = others.saturating_add(1);
        }
        last = id;
    }
    again >= others
}

/// What stands before the first separator of a line.
fn id_of(line: &[u8], separator: u8) -> &[u8] {
    line.split(|byte| *byte == separator).next().unwrap_or(line)
}

/// Where the first of about so many parts of some bytes ends.
#[tactic(auto, using(std::proofs::lemmas::Grind::common_steps, crate::proofs::MarkLemmas::cut_after))]
pub fn end_of_part(bytes: &[u8], count: usize) -> usize
    ensures within { result ≤ length bytes.now }
    ensures last { count < 2 → result ≡ length bytes.now }
    ensures cut { IsCut (take result bytes.now) (drop result bytes.now) }
{
    if count < 2 {
        return bytes.len();
    }
    let index = bytes.len() / count;
    for (more, byte) in bytes[index..].iter().enumerate() {
        let end = index + more + 1;
        if *byte == b'\n' && !bytes[end..].starts_with(&MARK) {
            return end;
        }
    }
    bytes.len()
}
