//! A text of which not all has been read.
ghost use Rattle.std.specs.Prelude.{◌≡◌, ◌+◌, ℕ, List, [], ◌∷◌, ◌++◌, None, Some, OnOk, MatchResult, if◌then◌else◌};
ghost use Rattle.basket_sets.specs.Number.{is_digit};
ghost use Rattle.basket_read.specs.Fault.{ReturnsFault};
ghost use Rattle.basket_counts.specs.Counts.{ListedSet, fault_from};
ghost use Rattle.basket_counts.specs.Line.{line_state, line_at, said_at, digit_fault_in};
ghost use Rattle.basket_counts.specs.ListedSets.{HasEntries};
ghost use Rattle.basket_counts.specs.Text.{IsTextSoFar, SaysFrom};

use crate::line::SetLine;
use crate::listed_sets::ListedSets;
use basket_read::ReadFault;
use basket_sets::Itemset;
use std::alloc::{AllocError, Global};

/// What has been read of a text: how many lines have ended, those before the text among them, what
/// its lines say, and the line after them.
#[derive(Debug, Drop)]
pub struct SetText {
    alloc: Global,
    /// One too many for a `u32` counts as out of memory.
    ended: u32,
    listed: ListedSets,
    line: SetLine,
}

impl SetText {
    /// A text that follows so many lines.
    fn new(alloc: Global, before: u32) -> Self
        ensures { IsTextSoFar result (before + 1) [] }
    {
        SetText {
            alloc,
            ended: before,
            listed: ListedSets::new(alloc),
            line: SetLine::new(alloc),
        }
    }

    /// Takes a byte.
    #[inline(always)]
    fn take(&mut self, byte: u8) -> Result<(), ReadFault>
        ensures { (line : ℕ) (bytes : List ℕ) → IsTextSoFar self.old line bytes →
            MatchResult result (λ _. IsTextSoFar self.new line (bytes ++ byte ∷ [])) (λ fault. ReturnsFault fault (fault_from line (bytes ++ byte ∷ []))) }
    {
        if byte == b'\n' {
            self.end_line()?;
            self.ended = self.ended.checked_add(1).ok_or(ReadFault::Memory)?;
            return Ok(());
        }
        if !self.line.take(byte)? {
            return Err(self.fault_at(byte));
        }
        Ok(())
    }

    /// The fault of a byte that can't stand here.
    fn fault_at(&self, byte: u8) -> ReadFault
        ensures { ReturnsFault result (Some (if is_digit byte then digit_fault_in (line_state self.now.line).tail (self.now.ended + 1) byte else ReadFault.Byte (self.now.ended + 1) byte)) }
    {
        let Some(line) = self.ended.checked_add(1) else {
            return ReadFault::Memory;
        };
        if byte.is_ascii_digit() {
            self.line.tail().digit_fault(line, byte)
        } else {
            ReadFault::Byte { line, byte }
        }
    }

    /// Adds what the line says, and begins a new line.
    fn end_line(&mut self) -> Result<(), AllocError>
        ensures line { OnOk result (line_state self.new.line ≡ line_at []) }
        ensures ended { self.new.ended ≡ self.old.ended }
        ensures listed { (entries : List ListedSet) → HasEntries self.old.listed entries →
            OnOk result (HasEntries self.new.listed (entries ++ said_at (line_state self.old.line) (self.old.ended + 1))) }
    {
        self.line.end()?;
        let numbers = self.line.numbers();
        let tail = self.line.tail();
        if tail.is_there() || !numbers.is_empty() {
            let line = self.ended.checked_add(1).ok_or(AllocError)?;
            let set = Itemset::from_items(self.alloc, numbers)?;
            self.listed.add(set, tail.count(), line)?;
        }
        self.line.clear();
        Ok(())
    }
}

/// What a text says that follows so many lines, or its first fault.
pub fn listed_in(alloc: Global, before: u32, bytes: &[u8]) -> Result<ListedSets, ReadFault>
    ensures { SaysFrom (before + 1) bytes.now result }
{
    let mut text = SetText::new(alloc, before);
    let mut taken = 0;
    loop {
        taken += text.line.take_run(&bytes[taken..])?;
        match bytes.get(taken) {
            Some(byte) => text.take(*byte)?,
            None => {
                text.end_line()?;
                return Ok(text.listed);
            }
        }
        taken += 1;
    }
}
