//! The bytes of an input.
ghost use Rattle.std.specs.Prelude.{◌≡◌, ◌<◌, ◌≤◌, false, true, length, take, IfOk, OnErr};
ghost use Rattle.std.specs.Io.KnownBytes.{Consumes, IsAtEnd};
ghost use Rattle.basket_read.specs.Bytes.{TakesIn};
ghost use Rattle.basket_read.specs.Fimi.{MOST_BYTES, text_of};

use crate::fault::ReadFault;
use crate::read::BLOCK;
use basket_stream::Source;
use std::alloc::{AllocError, Global};

/// The greatest number of bytes of an input.
pub const MAX_BYTES: usize = 4_294_967_295;

/// The byte order mark.
pub(crate) const MARK: [u8; 3] = [0xEF, 0xBB, 0xBF];

/// Reads the bytes of an input, or a prefix that is longer than an input may be.
pub fn take_in<S: Source>(alloc: Global, reader: &mut S) -> Result<Vec<u8>, ReadFault>
    requires working { S.has_failed reader.old ≡ false }
    requires open { S.at_end reader.old ≡ false }
    ensures taken { TakesIn (S.left reader.old) (S.has_failed reader.new) result }
    ensures ended { IfOk result (λ bytes. length bytes.items ≤ MOST_BYTES → S.at_end reader.new ≡ true) }
{
    let mut bytes = Vec::new(alloc);
    let count = fill(reader, &mut bytes, MAX_BYTES + 1)?;
    if reader.failed() {
        return Err(ReadFault::Read);
    }
    bytes.truncate(count);
    Ok(bytes)
}

/// The text of some bytes: what follows the mark if they begin with it.
pub fn text_of(bytes: &[u8]) -> &[u8]
    ensures { result.now ≡ text_of bytes.now }
{
    match bytes.strip_prefix(&MARK) {
        Some(text) => text,
        None => bytes,
    }
}

/// Fills the buffer, which grows up to this many bytes, from its beginning, and returns how much of
/// it: all unless the input ends or the reader fails.
pub(crate) fn fill<S: Source>(
    reader: &mut S,
    buffer: &mut Vec<u8>,
    most: usize,
) -> Result<usize, AllocError>
    requires working { S.has_failed reader.old ≡ false }
    requires open { S.at_end reader.old ≡ false }
    ensures within { IfOk result (λ count. count ≤ length buffer.new.items) }
    ensures given { IfOk result (λ count. Consumes (S.left reader.old) (S.left reader.new) (take count buffer.new.items)) }
    ensures ended { IfOk result (λ count. S.has_failed reader.new ≡ false → count < most → IsAtEnd (S.left reader.new)) }
    ensures stopped { IfOk result (λ count. S.has_failed reader.new ≡ false → count < most → S.at_end reader.new ≡ true) }
    ensures open { IfOk result (λ count. most ≤ count → S.at_end reader.new ≡ false) }
    ensures memory { OnErr result (S.has_failed reader.new ≡ false) }
{
    let mut filled = 0;
    while filled < most {
        if filled == buffer.len() {
            buffer.resize(most.min(filled + BLOCK), 0)?;
        }
        match reader.read(&mut buffer[filled..]) {
            Ok(0) | Err(_) => return Ok(filled),
            Ok(count) => filled += count,
        }
    }
    Ok(filled)
}
