//! Records that have a basket each.
ghost use Rattle.std.specs.Prelude.{◌≡◌, ◌≢◌, ◌≤◌, drop, fold, map, MatchResult, OnOk, IfOk, IfErr, IfSome, None, Some, false};
ghost use Rattle.basket_csv.specs.Record.{fields_of};
ghost use Rattle.basket_read.specs.Fault.{ReturnsFault};
ghost use Rattle.basket_read.specs.declared.fault.ReadFault.TheVariants.{Read};
ghost use Rattle.basket_csv.specs.Csv.{Named, is_text, weight_of, weight_written, names_in, fields_before, basket_fault, baskets_said};
ghost use Rattle.basket_names.specs.Names.{number_in, with_name};
ghost use Rattle.basket_csv.specs.Baskets.{AreNamedCounts, HasBaskets};

use crate::field::trim;
use crate::gathering::Gathering;
use crate::reading::Reading;
use crate::record::Record;
use crate::row::{number_names, text_at};
use basket_names::Numbering;
use basket_read::{GatheredBaskets, ItemCounts, ReadFault};
use basket_sets::parse_number;
use std::alloc::AllocError;

/// The weight that a text writes: digits of a value from 1 on.
fn weight_in(text: &[u8]) -> Option<u32>
    ensures read { result ≡ weight_written text.now }
    ensures some { IfSome result (λ weight. 1 ≤ weight) }
{
    let weight = parse_number(text, u64::from(u32::MAX))?;
    (weight > 0).then_some(weight as u32)
}

/// The weight of a record, if it has one: that in its first field, if one is asked for, else 1.
#[tactic(auto, using(crate::proofs::RowLemmas::no_text))]
fn weight_of(weighted: bool, nth: u32, row: &Record<'_>) -> Result<Option<u32>, ReadFault>
    ensures weight { MatchResult result
        (λ weight. (weight ≡ weight_of weighted (fields_of row.now)) × (is_text (fields_of row.now) ≡ is_text (drop (fields_before weighted) (fields_of row.now))))
        (λ fault. (fault ≡ ReadFault.NotText nth) × (is_text (fields_of row.now) ≡ false)) }
    ensures some { IfOk result (λ weight. IfSome weight (λ w. 1 ≤ w)) }
{
    if !weighted {
        return Ok(Some(1));
    }
    match text_at(row, 0) {
        Some(text) => Ok(weight_in(trim(text).as_bytes())),
        None => Err(ReadFault::NotText { nth }),
    }
}

/// Numbers the names of a record, and returns its weight. If it has a fault, `names` and `numbers` are
/// lost.
#[inline]
fn number_basket(
    weighted: bool,
    nth: u32,
    row: &Record<'_>,
    names: &mut Numbering,
    numbers: &mut Vec<u32>,
) -> Result<u32, ReadFault>
    ensures fault { MatchResult result (λ _. basket_fault weighted nth (fields_of row.now) ≡ None) (λ fault. ReturnsFault fault (basket_fault weighted nth (fields_of row.now))) }
    ensures names { OnOk result (names.new ≡ fold with_name names.old (names_in weighted (fields_of row.now))) }
    ensures numbers { OnOk result (numbers.new.items ≡ map (number_in names.new) (names_in weighted (fields_of row.now))) }
    ensures weight { IfOk result (λ weight. Some weight ≡ weight_of weighted (fields_of row.now)) }
    ensures some { IfOk result (λ weight. 1 ≤ weight) }
    ensures not_read { IfErr result (λ fault. fault ≢ Read) }
{
    let weight = weight_of(weighted, nth, row)?;
    let first = usize::from(weighted);
    if !number_names(row, first, names, numbers)? {
        return Err(ReadFault::NotText { nth });
    }
    match weight {
        Some(weight) => Ok(weight),
        None => Err(ReadFault::Weight { nth }),
    }
}

/// What has been read of such records.
#[derive(Drop)]
pub struct Baskets {
    weighted: bool,
    gathered: GatheredBaskets,
    /// The numbers of the names of one record.
    numbers: Vec<u32>,
}

impl Gathering for Baskets {
    type Found = ItemCounts;

    ghost fault_of = { basket_fault };

    ghost names_of = { names_in };

    ghost has = { λ baskets reading names rows. HasBaskets baskets reading names rows };

    ghost Said = { Named };

    ghost said_of = { λ reading. baskets_said reading.weighted };

    ghost finds = { λ reading. AreNamedCounts reading.counting };

    #[tactic(auto, using(std::proofs::lemmas::Grind::common_steps, crate::proofs::BasketLemmas::any_number))]
    fn new(reading: Reading) -> Self {
        Baskets {
            weighted: reading.weighted,
            gathered: GatheredBaskets::new(reading.alloc, reading.counting, 0),
            numbers: Vec::new(reading.alloc),
        }
    }

    fn add(&mut self, nth: u32, row: &Record<'_>, names: &mut Numbering) -> Result<(), ReadFault> {
        let weight = number_basket(self.weighted, nth, row, names, &mut self.numbers)?;
        self.gathered.add(&self.numbers, weight)
    }

    fn renamed(self, numbers: &[u32]) -> Result<Self, AllocError> {
        let mut renamed = self;
        renamed.gathered.rename(numbers)?;
        Ok(renamed)
    }

    fn followed_by(self, later: Self) -> Result<Self, AllocError> {
        let mut all = self;
        let Baskets { gathered, .. } = later;
        all.gathered.append_any(gathered)?;
        Ok(all)
    }

    fn finish(self) -> Result<ItemCounts, ReadFault> {
        let Baskets { gathered, .. } = self;
        gathered.finish()
    }
}
