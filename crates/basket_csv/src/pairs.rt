//! Records that have a basket's id and a name each.
ghost use Rattle.std.specs.Prelude.{◌≡◌, List, ℕ, [], ◌∷◌, ◌++◌, IsTrue, None, OnOk, IfErr, IfSome, map};
ghost use Rattle.basket_names.specs.Names.{are_among, with_name};
ghost use Rattle.basket_read.specs.Fault.{IsDefined};
ghost use Rattle.basket_csv.specs.Record.{fields_of};
ghost use Rattle.basket_csv.specs.Csv.{Named, pair_fault, pairs_of, pairs_said};
ghost use Rattle.basket_csv.specs.Row.{IsKnownPair};
ghost use Rattle.basket_csv.specs.Pairs.{HasPairs, pair_names};

use crate::field::{is_name, trim};
use crate::gathering::Gathering;
use crate::groups::{Group, add_number, add_numbers, gathered_from, rename_groups};
use crate::reading::Reading;
use crate::record::Record;
use crate::row::{is_text_from, known_number, text_at};
use basket_names::{Ids, Numbering};
use basket_read::ReadFault;
use basket_sets::Database;
use std::alloc::{AllocError, Global};

/// What has been read of such records: the numbers of the names of each id.
pub struct Pairs {
    alloc: Global,
    ids: Ids,
    groups: Vec<Group>,
}

impl Drop for Pairs {
    fn drop(self) {
        let Pairs {
            alloc: _,
            ids: _,
            groups: _,
        } = self;
    }
}

impl Pairs {
    /// Adds a name to the basket with an id.
    fn add_pair(&mut self, id: &str, name: &str, names: &mut Numbering) -> Result<(), ReadFault>
        ensures names { OnOk result (names.new ≡ with_name names.old name.now) }
        ensures read { (pairs : List (List ℕ × List ℕ)) → IsTrue (are_among names.old (map (λ pair. pair.1) pairs)) → HasPairs self.old names.old pairs
            → OnOk result (HasPairs self.new names.new (pairs ++ (id.now, name.now) ∷ [])) }
        ensures err { IfErr result (λ fault. fault ≡ ReadFault.Memory) }
    {
        let number = names.number(name)?;
        let index = self.ids.number(id)?;
        add_number(self.alloc, &mut self.groups, index as usize, number)?;
        Ok(())
    }

    /// The numbers of the id and the name of a record, if these are its two fields as they are, and
    /// both were found recently.
    #[inline]
    #[tactic(auto, using(std::proofs::lemmas::Grind::common_steps, crate::proofs::RowLemmas::field_found))]
    fn known_pair(&self, row: &Record<'_>, names: &Numbering) -> Option<(u32, u32)>
        ensures fault { (nth : ℕ) → IfSome result (λ _. pair_fault nth (fields_of row.now) ≡ None) }
        ensures known { IfSome result (λ pair. IsKnownPair self.now.ids names.now (fields_of row.now) pair.0 pair.1) }
    {
        let id = row.get(0)?;
        if row.len() != 2 || !is_name(id) {
            return None;
        }
        let index = self.ids.known(id)?;
        let number = known_number(row, 1, names)?;
        Some((index, number))
    }
}

impl Gathering for Pairs {
    type Found = Database;

    ghost fault_of = { λ weighted. pair_fault };

    ghost names_of = { λ weighted. pair_names };

    ghost has = { λ pairs reading names rows. HasPairs pairs names (pairs_of rows) };

    ghost Said = { Named };

    ghost said_of = { λ reading known rows. pairs_said known (pairs_of rows) };

    ghost finds = { λ reading. IsDefined };

    #[tactic(auto, using(std::proofs::lemmas::Grind::common_steps, crate::proofs::PairLemmas::any_number))]
    fn new(reading: Reading) -> Self {
        Pairs {
            alloc: reading.alloc,
            ids: Ids::new(reading.alloc, reading.seed),
            groups: Vec::new(reading.alloc),
        }
    }

    fn add(&mut self, nth: u32, row: &Record<'_>, names: &mut Numbering) -> Result<(), ReadFault> {
        if let Some((index, number)) = self.known_pair(row, names) {
            add_number(self.alloc, &mut self.groups, index as usize, number)?;
            return Ok(());
        }
        let Some(id) = text_at(row, 0) else {
            return Err(ReadFault::NotText { nth });
        };
        let Some(name) = text_at(row, 1) else {
            return Err(ReadFault::NotText { nth });
        };
        if !is_text_from(row, 2) {
            return Err(ReadFault::NotText { nth });
        }
        if row.len() < 2 {
            return Err(ReadFault::ShortRecord { nth });
        }
        let name = trim(name);
        if name.is_empty() {
            return Ok(());
        }
        self.add_pair(trim(id), name, names)
    }

    fn renamed(self, numbers: &[u32]) -> Result<Self, AllocError> {
        let mut renamed = self;
        rename_groups(&mut renamed.groups, numbers);
        Ok(renamed)
    }

    fn followed_by(self, later: Self) -> Result<Self, AllocError> {
        if self.groups.is_empty() {
            return Ok(later);
        }
        let Pairs {
            alloc,
            mut ids,
            mut groups,
        } = self;
        let Pairs {
            alloc: _,
            ids: later_ids,
            groups: later_groups,
        } = later;
        let indexes = ids.append(later_ids)?;
        for (nth, group) in later_groups.iter().enumerate() {
            add_numbers(alloc, &mut groups, indexes[nth] as usize, group)?;
        }
        Ok(Pairs { alloc, ids, groups })
    }

    /// A basket for each id, with the names of all its records.
    fn finish(self) -> Result<Database, ReadFault> {
        let Pairs { alloc, ids, groups } = self;
        // The memory of the ids is used for the baskets.
        drop(ids);
        let baskets = gathered_from(alloc, &groups)?.finish()?;
        Ok(baskets.rest)
    }
}
