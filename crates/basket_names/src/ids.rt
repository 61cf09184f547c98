//! The ids of baskets, and their numbers by first appearance.
ghost use Rattle.std.specs.Prelude.{◌≡◌, [], fold, map, IfOk, IfSome, OnOk};
ghost use Rattle.basket_names.specs.Key.{IsKeyOf};
ghost use Rattle.basket_names.specs.Names.{number_in, with_name, IsKnown};

use crate::key::Key;
use crate::names::Numbering;
use crate::recent::{FREE, RecentName};
use crate::seed::Seed;
use std::alloc::{AllocError, Global};
use std::marker::Model;

/// The ids so far, by which new ones are numbered. If one can't be numbered, all are lost.
pub struct Ids {
    numbering: Numbering,
    /// The id that was numbered last, which most records have again.
    last: RecentName,
}

impl Drop for Ids {
    fn drop(self) {
        let Ids {
            numbering: _,
            last: _,
        } = self;
    }
}

impl Model for Ids {
    ghost use Rattle.std.specs.Prelude.{ℕ, List};
    ghost use Rattle.basket_names.specs.Recent.{HasKnown};

    ghost Value = { List (List ℕ) };

    ghost view = { λ ids. ids.numbering };

    ghost invariant = { λ ids. HasKnown ids.numbering ids.last };
}

impl Ids {
    pub fn new(alloc: Global, seed: Seed) -> Self
        ensures { result ≡ [] }
    {
        Ids {
            numbering: Numbering::new(alloc, seed),
            last: FREE,
        }
    }

    /// The number of a known id, if it was numbered last or was found recently.
    #[inline]
    pub fn known(&self, id: &[u8]) -> Option<u32>
        ensures { IfSome result (IsKnown self.now id.now) }
    {
        let key = Key::of(id);
        if let Some(number) = self.last_number(&key, id) {
            return Some(number);
        }
        self.numbering.recent_number(&key, id)
    }

    /// The number of the id with this key, if it was numbered last.
    #[inline(always)]
    fn last_number(&self, key: &Key, id: &[u8]) -> Option<u32>
        requires { IsKeyOf key.now id.now }
        ensures { IfSome result (IsKnown self.now id.now) }
    {
        (key.is_whole() && self.last.has(key)).then_some(self.last.number)
    }

    /// The number of an id, which is new or known.
    pub fn number(&mut self, id: &str) -> Result<u32, AllocError>
        ensures ids { OnOk result (self.new ≡ with_name self.old id.now) }
        ensures number { IfOk result (λ number. number ≡ number_in self.new id.now) }
    {
        let key = Key::of(id.as_bytes());
        if let Some(number) = self.last_number(&key, id.as_bytes()) {
            return Ok(number);
        }
        self.last = FREE;
        let number = self.numbering.number(id)?;
        self.last = RecentName::new(&key, number);
        Ok(number)
    }

    /// The numbers of ids, which are new or known.
    pub fn append(&mut self, ids: Ids) -> Result<Vec<u32>, AllocError>
        ensures ids { OnOk result (self.new ≡ fold with_name self.old ids) }
        ensures numbers { IfOk result (λ numbers. numbers.items ≡ map (number_in self.new) ids) }
    {
        self.last = FREE;
        let Ids { numbering, last: _ } = ids;
        self.numbering.numbers_of(numbering.into_names()?)
    }
}
