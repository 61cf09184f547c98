//! An input of which not all has been read.
ghost use Rattle.std.specs.Prelude.{◌≡◌, ℕ, Bool, true, false, List, [], ◌∷◌};
ghost use Rattle.basket_read.specs.Fimi.{fault_in, fimi_of};
ghost use Rattle.basket_read.specs.Fault.{ReturnsBy};
ghost use Rattle.basket_read.specs.GatheredBaskets.{Gathers};
ghost use Rattle.basket_read.specs.Input.{IsInputSoFar, TakesOn};

use crate::bytes::{MARK, MAX_BYTES};
use crate::fault::ReadFault;
use crate::item_counts::ItemCounts;
use crate::line_reader::LineReader;
use crate::text::Text;
use std::alloc::Global;

/// The fault of bytes that begin as the mark does and don't go on so.
const HALF_A_MARK: ReadFault = ReadFault::Byte {
    line: 1,
    byte: MARK[0],
};

/// What has been read of an input: how many bytes, and the text after its beginning.
#[derive(Debug, Drop)]
pub struct Input {
    /// Whether the bytes so far have the mark, or can't become it.
    decided: bool,
    taken: u32,
    text: Text,
}

impl Input {
    /// An input of which nothing has been read. Its baskets may be counted.
    pub fn new(alloc: Global, counting: bool) -> Self
        ensures { IsInputSoFar result counting [] }
    {
        Input {
            decided: false,
            taken: 0,
            text: Text::new(alloc, counting, 0),
        }
    }

    /// Takes more of the input, up to its first fault.
    pub fn take<F: LineReader>(&mut self, line_reader: &F, piece: &[u8]) -> Result<(), ReadFault>
        requires { F.is_ready line_reader.now }
        ensures { TakesOn self.old piece.now result self.new }
    {
        for (index, byte) in piece.iter().enumerate() {
            if self.decided {
                return self.take_text(line_reader, &piece[index..]);
            }
            self.take_byte(*byte)?;
        }
        Ok(())
    }

    /// Takes the next byte of the mark, or the first byte of an input without it.
    fn take_byte(&mut self, byte: u8) -> Result<(), ReadFault>
        requires { self.old.decided ≡ false }
        ensures { TakesOn self.old (byte ∷ []) result self.new }
    {
        if self.taken < 3 && byte == MARK[self.taken as usize] {
            self.taken += 1;
            self.decided = self.taken == 3;
            return Ok(());
        }
        if self.taken > 0 {
            return Err(HALF_A_MARK);
        }
        self.text.feed(&[byte])?;
        self.decided = true;
        self.taken = 1;
        Ok(())
    }

    /// Takes bytes after the beginning, as many as an input may have.
    fn take_text<F: LineReader>(&mut self, line_reader: &F, piece: &[u8]) -> Result<(), ReadFault>
        requires ready { F.is_ready line_reader.now }
        requires decided { self.old.decided ≡ true }
        ensures { TakesOn self.old piece.now result self.new }
    {
        let room = MAX_BYTES - self.taken as usize;
        if piece.len() > room {
            self.text.feed(&piece[..room])?;
            return Err(ReadFault::TooLong);
        }
        line_reader.feed(&mut self.text, piece)?;
        self.taken += piece.len() as u32;
        Ok(())
    }

    /// The fault of the bytes so far if none follow.
    pub fn fault_so_far(&self) -> Option<ReadFault>
        ensures { (counting : Bool) (bytes : List ℕ) → IsInputSoFar self.now counting bytes → result ≡ fault_in bytes }
    {
        if self.decided || self.taken == 0 {
            return None;
        }
        Some(HALF_A_MARK)
    }

    /// The counts of the whole input.
    pub fn finish(self) -> Result<ItemCounts, ReadFault>
        ensures { (counting : Bool) (bytes : List ℕ) → IsInputSoFar self counting bytes → ReturnsBy (Gathers counting) result (fimi_of bytes) }
    {
        if let Some(fault) = self.fault_so_far() {
            return Err(fault);
        }
        let Input { text, .. } = self;
        text.finish()
    }
}
