//! Texts that workers read side by side.
ghost use Rattle.std.specs.Prelude.{◌≡◌, ◌<◌, ◌≤◌, ℕ, List, [], ◌++◌, length, take, IfOk, IfSome, MatchResult};
ghost use Rattle.std.specs.Thread.{IsSync};
ghost use Rattle.basket_sets.specs.declared.weighted.Weighted.{Weighted};
ghost use Rattle.basket_read.specs.Fimi.{first_fault};
ghost use Rattle.basket_read.specs.Fault.{ReturnsFault};
ghost use Rattle.basket_read.specs.Text.{EndsLine, IsSomeText, ReadsOn};

use crate::fault::ReadFault;
use crate::text::Text;
use std::thread::{Threads, join};

/// A shorter text is not worth a thread.
const LEAST: usize = 65_536;

/// Takes more of a text, up to its first fault, as `Text::feed` does, by this many workers. If its
/// baskets are counted, each worker counts those of its part.
#[cycle(halves)]
pub fn feed_shared<R: Threads + Sync>(
    rt: &R,
    text: Text,
    piece: &[u8],
    workers: u32,
) -> Result<Text, ReadFault>
    ensures { ReadsOn text piece.now result (λ read. read) }
{
    let Some(end) = middle_of(piece, workers) else {
        return text.fed(piece);
    };
    let (prefix, rest) = piece.split_at(end);
    let (text, read) = feed_halves(rt, text, prefix, rest, workers);
    let mut text = text?;
    if text.append(read)? {
        return Ok(text);
    }
    // The rest follows in order: its baskets are kept too, or its fault has the number of its line.
    text.fed(rest)
}

/// What the text is with the prefix, and what the rest is as a text of its own.
#[cycle(halves)]
fn feed_halves<R: Threads + Sync>(
    rt: &R,
    text: Text,
    prefix: &[u8],
    rest: &[u8],
    workers: u32,
) -> (Result<Text, ReadFault>, Result<Text, ReadFault>)
    requires { 2 ≤ workers }
    ensures prefix { ReadsOn text prefix.now result.0 (λ read. read) }
    ensures rest { IfOk result.1 (IsSomeText rest.now) }
{
    let few = workers / 2;
    let others = workers - few;
    let alloc = text.alloc();
    let counting = text.counts();
    let (read, text) = join(
        rt,
        || -> Result<Text, ReadFault>
            requires { IsSync R.row }
            ensures { IfOk result (IsSomeText rest.entry.now) }
        { feed_shared(rt, Text::new(alloc, counting, rest.len()), rest, others) },
        || -> Result<Text, ReadFault>
            requires { IsSync R.row }
            ensures { ReadsOn text prefix.entry.now result (λ read. read) }
        { feed_shared(rt, text, prefix, few) },
    );
    (text, read)
}

/// Where a piece is cut in two, after a line feed, if that is worth a thread.
pub fn middle_of(piece: &[u8], workers: u32) -> Option<usize>
    ensures several { IfSome result (λ _. 2 ≤ workers) }
    ensures within { IfSome result (λ end. end ≤ length piece.now) }
    ensures ends { IfSome result (λ end. EndsLine (take end piece.now)) }
{
    if workers < 2 || piece.len() < LEAST {
        return None;
    }
    let middle = piece.len() as u128 * u128::from(workers / 2) / u128::from(workers);
    let middle = middle as usize;
    for (index, byte) in piece[middle..].iter().enumerate() {
        if *byte == b'\n' {
            return Some(middle + index + 1);
        }
    }
    None
}
