//! Names, and their numbers by first appearance.
ghost use Rattle.std.specs.Prelude.{◌≡◌, ◌↔◌, [], fold, length, map, slice_get, option_map, IsTrue, IfOk, IfSome, OnOk};
ghost use Rattle.std.specs.String.{string_bytes};
ghost use Rattle.basket_names.specs.Key.{IsKeyOf};
ghost use Rattle.basket_names.specs.Names.{in_order, number_in, with_name, IsKnown};
ghost use Rattle.basket_names.specs.Recent.{IsNumberAt};

use crate::key::Key;
use crate::recent::Recent;
use crate::seed::Seed;
use indexmap::IndexSet;
use std::alloc::{AllocError, Global};
use std::marker::Model;

/// The names of items. An item's number is the index of its name, from 0.
#[derive(Drop)]
pub struct Names {
    names: Vec<String>,
}

impl Model for Names {
    ghost use Rattle.std.specs.Prelude.{ℕ, List, map};
    ghost use Rattle.std.specs.String.{string_bytes};

    ghost Value = { List (List ℕ) };

    ghost view = { λ n. map string_bytes n.names.items };
}

impl Names {
    pub fn none(alloc: Global) -> Self
        ensures { result ≡ [] }
    {
        Names {
            names: Vec::new(alloc),
        }
    }

    /// The name of an item.
    pub fn get(&self, number: u32) -> Option<&str>
        ensures { option_map (λ name. name.now) result ≡ slice_get self.now number }
    {
        let name = self.names.get(number as usize)?;
        Some(name.as_str())
    }

    /// The number of names.
    pub fn len(&self) -> usize
        ensures { result ≡ length self.now }
    {
        self.names.len()
    }

    pub fn is_empty(&self) -> bool
        ensures { IsTrue result ↔ (self.now ≡ []) }
    {
        self.names.is_empty()
    }
}

/// The names so far, by which new ones are numbered. If one can't be numbered, all are lost.
pub struct Numbering {
    alloc: Global,
    names: IndexSet<String, Seed>,
    recent: Recent,
}

impl Drop for Numbering {
    fn drop(self) {
        let Numbering {
            alloc: _,
            names: _,
            recent: _,
        } = self;
    }
}

impl Model for Numbering {
    ghost use Rattle.std.specs.Prelude.{ℕ, List, map};
    ghost use Rattle.std.specs.String.{string_bytes};
    ghost use Rattle.basket_names.specs.Recent.{KeepsKnown};

    ghost Value = { List (List ℕ) };

    ghost view = { λ n. map string_bytes n.names.keys };

    ghost invariant = { λ n. KeepsKnown (map string_bytes n.names.keys) n.recent };
}

impl Numbering {
    pub fn new(alloc: Global, seed: Seed) -> Self
        ensures { result ≡ [] }
    {
        Numbering {
            alloc,
            names: IndexSet::with_hasher(alloc, seed),
            recent: Recent::new(alloc),
        }
    }

    /// How many names there are.
    pub fn len(&self) -> usize
        ensures { result ≡ length self.now }
    {
        self.names.len()
    }

    pub fn is_empty(&self) -> bool
        ensures { IsTrue result ↔ (self.now ≡ []) }
    {
        self.names.is_empty()
    }

    /// The number of a name, which is new or known. A known name costs a look-up and no allocation.
    #[inline]
    pub fn number(&mut self, name: &str) -> Result<u32, AllocError>
        ensures names { OnOk result (self.new ≡ with_name self.old name.now) }
        ensures number { IfOk result (λ number. number ≡ number_in self.new name.now) }
    {
        let key = Key::of(name.as_bytes());
        if let Some(number) = self.recent_number(&key, name.as_bytes()) {
            return Ok(number);
        }
        let known = self.names.len();
        let index = self.index(name)?;
        let number = as_number(index)?;
        self.keep(&key, name.as_bytes(), number, index < known)?;
        Ok(number)
    }

    /// The number of a known name, if it was found recently.
    #[inline(always)]
    pub fn known(&self, name: &[u8]) -> Option<u32>
        ensures { IfSome result (IsKnown self.now name.now) }
    {
        self.recent_number(&Key::of(name), name)
    }

    /// The number of a known name of this key, if it was found recently.
    #[inline(always)]
    pub(crate) fn recent_number(&self, key: &Key, name: &[u8]) -> Option<u32>
        requires { IsKeyOf key.now name.now }
        ensures { IfSome result (IsKnown self.now name.now) }
    {
        let number = self.recent.number(key, name)?;
        if key.is_whole() {
            return Some(number);
        }
        let known = self.names.as_slice().get(number as usize)?;
        (known.as_str().as_bytes() == name).then_some(number)
    }

    /// Keeps the number of a name, which was known but missed, or is new.
    #[inline]
    fn keep(&mut self, key: &Key, name: &[u8], number: u32, missed: bool) -> Result<(), AllocError>
        requires { IsNumberAt self.old key.now number }
        ensures { self.new ≡ self.old }
    {
        self.recent.make_room(self.alloc, self.names.len(), missed)?;
        self.recent.keep(key, name, number);
        Ok(())
    }

    /// The index of a name, which is added at the end if it is new.
    #[inline]
    fn index(&mut self, name: &str) -> Result<usize, AllocError>
        ensures names { OnOk result (self.new ≡ with_name self.old name.now) }
        ensures number { IfOk result (λ index. index ≡ number_in self.new name.now) }
    {
        if let Some(index) = self.names.get_index_of(name) {
            return Ok(index);
        }
        self.insert(String::from_str(self.alloc, name)?)
    }

    /// The index of a name, which stays as it is and is added at the end if it is new.
    #[inline]
    fn insert(&mut self, name: String) -> Result<usize, AllocError>
        ensures names { OnOk result (self.new ≡ with_name self.old (string_bytes name)) }
        ensures number { IfOk result (λ index. index ≡ number_in self.new (string_bytes name)) }
    {
        let (index, _) = self.names.insert_full(name)?;
        Ok(index)
    }

    /// The numbering of these names, each of which counts once.
    pub fn of(alloc: Global, seed: Seed, known: Names) -> Result<Self, AllocError>
        ensures { IfOk result (λ numbering. numbering ≡ in_order known) }
    {
        let mut names = IndexSet::with_hasher(alloc, seed);
        for name in known.names {
            names.insert_full(name)?;
        }
        Ok(Numbering {
            alloc,
            names,
            recent: Recent::new(alloc),
        })
    }

    /// The numbers of some names, which are new or known.
    pub fn numbers_of(&mut self, names: Names) -> Result<Vec<u32>, AllocError>
        ensures names { OnOk result (self.new ≡ fold with_name self.old names) }
        ensures numbers { IfOk result (λ numbers. numbers.items ≡ map (number_in self.new) names) }
    {
        let mut numbers = Vec::with_capacity(self.alloc, names.len())?;
        for name in names.names {
            numbers.push(self.own_number(name)?)?;
        }
        Ok(numbers)
    }

    /// The number of a name, which is new or known. The text of a new one is not copied.
    fn own_number(&mut self, name: String) -> Result<u32, AllocError>
        ensures names { OnOk result (self.new ≡ with_name self.old (string_bytes name)) }
        ensures number { IfOk result (λ number. number ≡ number_in self.new (string_bytes name)) }
    {
        match self.known(name.as_str().as_bytes()) {
            Some(number) => Ok(number),
            None => as_number(self.insert(name)?),
        }
    }

    /// The names by their numbers.
    pub fn into_names(self) -> Result<Names, AllocError>
        ensures { IfOk result (λ names. names ≡ self) }
    {
        let Numbering {
            alloc,
            names,
            recent: _,
        } = self;
        Ok(Names {
            names: names.into_iter().collect(alloc)?,
        })
    }
}

/// The number of the name at an index. No input is long enough for more names than there are numbers.
fn as_number(index: usize) -> Result<u32, AllocError>
    ensures { IfOk result (λ number. number ≡ index) }
{
    match u32::try_from(index) {
        Ok(number) => Ok(number),
        Err(_) => Err(AllocError),
    }
}
