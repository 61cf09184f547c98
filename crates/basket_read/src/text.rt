//! A text of which not all has been read.
ghost use Rattle.std.specs.Prelude.{◌≡◌, ◌≤◌, ◌+◌, ℕ, Bool, List, [], ◌∷◌, ◌++◌, length, take, false, Some, if◌then◌else◌, OnOk, IfOk, IfErr, IsTrue, MatchResult};
ghost use Rattle.basket_sets.specs.declared.weighted.Weighted.{Weighted};
ghost use Rattle.basket_read.specs.Cut.{cut_at};
ghost use Rattle.basket_read.specs.Fimi.{is_line_feed, first_fault, baskets_of, if_light};
ghost use Rattle.basket_sets.specs.Number.{is_digit};
ghost use Rattle.basket_read.specs.Line.{line_state, line_at, line_ended};
ghost use Rattle.basket_read.specs.Fault.{ReturnsBy, ReturnsFault};
ghost use Rattle.basket_read.specs.GatheredBaskets.{Gathers, HasGathered};
ghost use Rattle.basket_read.specs.Text.{basket_said, IsSomeText, IsTextSoFar, ReadsOn};

use crate::fault::ReadFault;
use crate::gathered::GatheredBaskets;
use crate::item_counts::ItemCounts;
use crate::line::Line;
use std::alloc::{AllocError, Global};

/// About how many bytes a number and a blank have.
const BYTES_OF_A_NUMBER: usize = 8;

/// What has been read of a text: how many lines have ended, their baskets, and the line after them.
#[derive(Debug, Drop)]
pub struct Text {
    /// One too many for a `u32` counts as out of memory.
    lines: u32,
    gathered: GatheredBaskets,
    line: Line,
}

impl Text {
    /// A text of which nothing has been read, and of which this many bytes will come at least. Its
    /// baskets may be counted.
    pub fn new(alloc: Global, counting: bool, bytes: usize) -> Self
        ensures { IsTextSoFar result counting [] }
    {
        Text {
            lines: 0,
            gathered: GatheredBaskets::new(alloc, counting, bytes / BYTES_OF_A_NUMBER),
            line: Line::new(alloc),
        }
    }

    /// Takes more of the text, up to its first fault.
    pub fn feed(&mut self, piece: &[u8]) -> Result<(), ReadFault>
        ensures { ReadsOn self.old piece.now result (λ _. self.new) }
    {
        let mut taken = 0;
        loop {
            taken += self.take_run(&piece[taken..])?;
            match piece.get(taken) {
                Some(byte) => self.take(*byte)?,
                None => return Ok(()),
            }
            taken += 1;
        }
    }

    /// The text with the piece, up to its first fault.
    pub fn fed(mut self, piece: &[u8]) -> Result<Text, ReadFault>
        ensures { ReadsOn self piece.now result (λ read. read) }
    {
        match self.feed(piece) {
            Ok(()) => Ok(self),
            Err(fault) => Err(fault),
        }
    }

    /// Takes leading digits and blanks of the piece, as many as the line takes.
    #[inline(always)]
    fn take_run(&mut self, piece: &[u8]) -> Result<usize, ReadFault>
        ensures within { IfOk result (λ taken. taken ≤ length piece.now) }
        ensures text { (counting : Bool) (bytes : List ℕ) → IsTextSoFar self.old counting bytes →
            IfOk result (λ taken. IsTextSoFar self.new counting (bytes ++ take taken piece.now)) }
        ensures err { IfErr result (λ fault. fault ≡ ReadFault.Memory) }
    {
        // An empty line.
        if let Some(b'\n') = piece.first() {
            return Ok(0);
        }
        Ok(self.line.take_run(piece)?)
    }

    /// Takes a byte.
    #[inline(always)]
    fn take(&mut self, byte: u8) -> Result<(), ReadFault>
        ensures { ReadsOn self.old (byte ∷ []) result (λ _. self.new) }
    {
        if byte == b'\n' {
            self.end_line()?;
            self.lines = self.lines.checked_add(1).ok_or(ReadFault::Memory)?;
            return Ok(());
        }
        if !self.line.take(byte)? {
            return Err(self.fault_at(byte));
        }
        Ok(())
    }

    /// The fault of a byte that can't stand here.
    fn fault_at(&self, byte: u8) -> ReadFault
        ensures { ReturnsFault result (Some (if is_digit byte then ReadFault.Number (self.now.lines + 1) else ReadFault.Byte (self.now.lines + 1) byte)) }
    {
        let Some(line) = self.lines.checked_add(1) else {
            return ReadFault::Memory;
        };
        if byte.is_ascii_digit() {
            ReadFault::Number { line }
        } else {
            ReadFault::Byte { line, byte }
        }
    }

    /// Adds the line's basket, if it has a number, and begins a new line.
    #[inline]
    fn end_line(&mut self) -> Result<(), ReadFault>
        ensures line { OnOk result (line_state self.new.line ≡ line_at []) }
        ensures lines { self.new.lines ≡ self.old.lines }
        ensures baskets { (counting : Bool) (baskets : List Weighted) → HasGathered self.old.gathered counting baskets →
            OnOk result (HasGathered self.new.gathered counting (baskets ++ basket_said (line_ended (line_state self.old.line)))) }
        ensures err { IfErr result (λ fault. fault ≡ ReadFault.Memory) }
    {
        self.line.end()?;
        self.gathered.add(self.line.numbers(), self.line.weight())?;
        self.line.clear();
        Ok(())
    }

    /// What the text allocates with.
    pub fn alloc(&self) -> Global {
        self.gathered.alloc()
    }

    /// Whether the next basket may be counted.
    pub fn counts(&self) -> bool {
        self.gathered.counts()
    }

    /// Adds what was read of the text that follows, if this one ends after a line feed, and returns
    /// whether it did: not if that text has a fault, or if its baskets were counted and some of this
    /// one are kept.
    pub fn append(&mut self, other: Result<Text, ReadFault>) -> Result<bool, AllocError>
        ensures text { (counting : Bool) (lines more : List ℕ) → IsTextSoFar self.old counting lines → (cut_at is_line_feed lines).last ≡ [] → IfOk other (IsSomeText more)
            → IfOk result (λ appended. IsTrue appended → IsTextSoFar self.new counting (lines ++ more)) }
        ensures left { IfOk result (λ appended. appended ≡ false → self.new ≡ self.old) }
    {
        let Ok(
            Text {
                lines,
                gathered,
                line,
            },
        ) = other
        else {
            return Ok(false);
        };
        if !self.gathered.append(gathered)? {
            return Ok(false);
        }
        self.lines = self.lines.checked_add(lines).ok_or(AllocError)?;
        self.line.copy_from(&line)?;
        Ok(true)
    }

    /// The counts of the whole text, if its baskets don't weigh too much.
    pub fn finish(mut self) -> Result<ItemCounts, ReadFault>
        ensures { (counting : Bool) (bytes : List ℕ) → IsTextSoFar self counting bytes → ReturnsBy (Gathers counting) result (if_light (baskets_of bytes)) }
    {
        self.end_line()?;
        self.gathered.finish()
    }
}
