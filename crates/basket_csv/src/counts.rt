//! Records that have a set of names and its count each.
ghost use Rattle.std.specs.Prelude.{◌≡◌, OnOk, IfErr, length, map, true};
ghost use Rattle.basket_read.specs.Fault.{AreDefined};
ghost use Rattle.basket_csv.specs.Counts.{AreBelow, HasCounts, NamedCounts, counts_said, numbered_from, renamed_line, set_fault};
ghost use Rattle.basket_csv.specs.Csv.{first_number, names_in};

use crate::collector::number_after;
use crate::field::trim;
use crate::gathering::Gathering;
use crate::reading::Reading;
use crate::record::Record;
use crate::row::{number_names, text_at};
use basket_names::Numbering;
use basket_read::{CountedLine, ReadFault};
use basket_sets::{Itemset, parse_number};
use std::alloc::{AllocError, Global};

/// The greatest count.
const MAX_COUNT: u64 = 1_099_511_627_775;

/// What has been read of such records. Each is a line, whose number follows from its index in the end.
#[derive(Drop)]
pub struct Counts {
    alloc: Global,
    header: bool,
    lines: Vec<CountedLine>,
    /// The numbers of the names of one record.
    numbers: Vec<u32>,
}

impl Gathering for Counts {
    type Found = Vec<CountedLine>;

    ghost fault_of = { λ weighted. set_fault };

    ghost names_of = { λ weighted. names_in true };

    ghost has = { λ counts reading names rows. HasCounts counts reading names rows };

    ghost Said = { NamedCounts };

    ghost said_of = { λ reading. counts_said (first_number reading.dialect.header) };

    ghost finds = { λ reading. AreDefined };

    #[tactic(auto, using(std::proofs::lemmas::Grind::common_steps, crate::proofs::CountLemmas::any_number))]
    fn new(reading: Reading) -> Self {
        Counts {
            alloc: reading.alloc,
            header: reading.dialect.header,
            lines: Vec::new(reading.alloc),
            numbers: Vec::new(reading.alloc),
        }
    }

    fn add(&mut self, nth: u32, row: &Record<'_>, names: &mut Numbering) -> Result<(), ReadFault> {
        let Some(text) = text_at(row, 0) else {
            return Err(ReadFault::NotText { nth });
        };
        if !number_names(row, 1, names, &mut self.numbers)? {
            return Err(ReadFault::NotText { nth });
        }
        let Some(count) = parse_number(trim(text).as_bytes(), MAX_COUNT) else {
            return Err(ReadFault::RecordCount { nth });
        };
        let set = Itemset::from_items(self.alloc, &self.numbers)?;
        self.lines.push(CountedLine {
            set,
            count,
            line: 0,
        })?;
        Ok(())
    }

    fn renamed(self, numbers: &[u32]) -> Result<Self, AllocError> {
        let mut renamed = self;
        rename_lines(&mut renamed.lines, numbers);
        Ok(renamed)
    }

    fn followed_by(self, later: Self) -> Result<Self, AllocError> {
        let mut all = self;
        let Counts { mut lines, .. } = later;
        all.lines.append(&mut lines)?;
        Ok(all)
    }

    fn finish(self) -> Result<Vec<CountedLine>, ReadFault> {
        let Counts {
            header,
            mut lines,
            ..
        } = self;
        number_lines(&mut lines, 1 + u32::from(header))?;
        Ok(lines)
    }
}

/// Replaces the items of each set by their names.
fn rename_lines(lines: &mut [CountedLine], names: &[u32])
    requires { AreBelow (length names.now) lines.old }
    ensures { lines.new ≡ map (renamed_line names.now) lines.old }
{
    for index in 0..lines.len() {
        lines[index].set.rename(names);
    }
}

/// Numbers the lines, of which the first has this number.
fn number_lines(lines: &mut [CountedLine], first: u32) -> Result<(), ReadFault>
    ensures lines { OnOk result (lines.new ≡ numbered_from first lines.old) }
    ensures err { IfErr result (λ fault. fault ≡ ReadFault.Memory) }
{
    let mut nth = first;
    for index in 0..lines.len() {
        lines[index].line = nth;
        nth = number_after(nth, 1)?;
    }
    Ok(())
}
