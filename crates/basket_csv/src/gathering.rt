//! What is gathered of the records of a text, with their names.
ghost use Rattle.std.specs.Prelude.{◌≡◌, ◌≢◌, Bool, List, ℕ, [], ◌∷◌, ◌++◌, IsTrue, Option, None, Result, MatchResult, OnOk, IfOk, IfErr, fold};
ghost use Rattle.std.specs.List.{flat_map};
ghost use Rattle.basket_csv.specs.Record.{fields_of};
ghost use Rattle.basket_read.specs.declared.fault.ReadFault.{ReadFault};
ghost use Rattle.basket_read.specs.declared.fault.ReadFault.TheVariants.{Memory, Read};
ghost use Rattle.basket_read.specs.Fault.{ReturnsBy, ReturnsFault};
ghost use Rattle.basket_names.specs.Names.{are_among, in_order, with_name};
ghost use Rattle.basket_csv.specs.declared.reading.Reading.{Reading};
ghost use Rattle.basket_csv.specs.Gathering.{HasRead, IsRenaming};
ghost use Rattle.basket_csv.specs.Rows.{Rows};

use crate::reading::Reading;
use crate::record::Record;
use basket_names::{Names, Numbering};
use basket_read::ReadFault;
use std::alloc::AllocError;

/// What records of one kind are gathered to, over names that are numbered beside it. After an `Err`
/// all that was gathered is lost.
pub trait Gathering: Drop + Send + Sized {
    /// What the records are read as, beside the names.
    type Found;

    // The fault of a record with this number, if records have weights or not.
    ghost fault_of: { Bool → ℕ → List (List ℕ) → Option ReadFault };

    // The names in a record.
    ghost names_of: { Bool → List (List ℕ) → List (List ℕ) };

    // These are the records of which this was gathered, over these names.
    ghost has: { Self → Reading → List (List ℕ) → Rows → Type 0 };

    // What is defined of records.
    ghost Said: { Type 0 };

    // What records without a fault say, if some names are known.
    ghost said_of: { Reading → List (List ℕ) → Rows → Result Said ReadFault };

    // What is found, with the names, fits what is said.
    ghost finds: { Reading → Self.Found × List (List ℕ) → Result Said ReadFault → Type 0 };

    /// Nothing is read yet.
    fn new(reading: Reading) -> Self
        ensures read { (names : List (List ℕ)) → has result reading names [] }
        // Whether a record has a fault does not depend on its number.
        ensures any_number { (weighted : Bool) (n m : ℕ) (row : List (List ℕ)) → fault_of weighted n row ≡ None → fault_of weighted m row ≡ None };

    /// Adds a record by its number.
    fn add(&mut self, nth: u32, row: &Record<'_>, names: &mut Numbering) -> Result<(), ReadFault>
        ensures fault { (reading : Reading) (rows : Rows) → has self.old reading names.old rows →
            MatchResult result (λ _. fault_of reading.weighted nth (fields_of row.now) ≡ None) (λ fault. ReturnsFault fault (fault_of reading.weighted nth (fields_of row.now))) }
        ensures names { (reading : Reading) (rows : Rows) → has self.old reading names.old rows → OnOk result (names.new ≡ fold with_name names.old (names_of reading.weighted (fields_of row.now))) }
        ensures read { (reading : Reading) (rows : Rows) → IsTrue (are_among names.old (flat_map (names_of reading.weighted) rows)) → has self.old reading names.old rows →
            OnOk result (has self.new reading names.new (rows ++ fields_of row.now ∷ [])) }
        ensures not_read { IfErr result (λ fault. fault ≢ Read) };

    /// The same over all names, if these were gathered over names of their own. The list has the number
    /// of each of these among all.
    fn renamed(self, numbers: &[u32]) -> Result<Self, AllocError>
        requires { (reading : Reading) × (all : List (List ℕ)) × (rows : Rows) × IsRenaming has names_of reading self numbers.now all rows }
        ensures { (reading : Reading) (all : List (List ℕ)) (rows : Rows) → IsRenaming has names_of reading self numbers.now all rows → IfOk result (λ renamed. has renamed reading all rows) };

    /// These, and what was gathered of the records that come next, over the same names.
    fn followed_by(self, later: Self) -> Result<Self, AllocError>
        requires { (reading : Reading) × (names : List (List ℕ)) × (more : Rows) × has later reading names more }
        ensures { (reading : Reading) (names : List (List ℕ)) (rows more : Rows) → has self reading names rows → has later reading names more → IfOk result (λ all. has all reading names (rows ++ more)) };

    /// What the records say, none of which has a fault.
    fn finish(self) -> Result<Self::Found, ReadFault>
        ensures said { (reading : Reading) (known names : List (List ℕ)) (rows : Rows) → names ≡ in_order (known ++ flat_map (names_of reading.weighted) rows) → has self reading names rows
            → ReturnsBy (λ found. finds reading (found, names)) result (said_of reading known rows) }
        ensures not_read { IfErr result (λ fault. fault ≢ Read) };
}

/// What was gathered of some records, and the names in them.
#[derive(Drop)]
pub struct Named<G> {
    pub names: Numbering,
    pub gathered: G,
}

impl<G: Gathering> Named<G> {
    /// Nothing is read yet, and some names are known.
    pub fn new(reading: Reading, known: Names) -> Result<Self, AllocError>
        ensures read { IfOk result (λ named. HasRead G.has G.names_of reading known named []) }
        ensures any_number { IfOk result (λ _. (weighted : Bool) (n m : ℕ) (row : List (List ℕ)) → G.fault_of weighted n row ≡ None → G.fault_of weighted m row ≡ None) }
    {
        Ok(Named {
            names: Numbering::of(reading.alloc, reading.seed, known)?,
            gathered: G::new(reading),
        })
    }

    /// Adds a record by its number.
    #[inline]
    pub fn add(&mut self, nth: u32, row: &Record<'_>) -> Result<(), ReadFault>
        ensures fault { (reading : Reading) (known : List (List ℕ)) (rows : Rows) → HasRead G.has G.names_of reading known self.old rows →
            MatchResult result (λ _. G.fault_of reading.weighted nth (fields_of row.now) ≡ None) (λ fault. ReturnsFault fault (G.fault_of reading.weighted nth (fields_of row.now))) }
        ensures read { (reading : Reading) (known : List (List ℕ)) (rows : Rows) → HasRead G.has G.names_of reading known self.old rows →
            OnOk result (HasRead G.has G.names_of reading known self.new (rows ++ fields_of row.now ∷ [])) }
        ensures not_read { IfErr result (λ fault. fault ≢ Read) }
    {
        self.gathered.add(nth, row, &mut self.names)
    }

    /// What the records say, and their names.
    pub fn finish(self) -> Result<(G::Found, Names), ReadFault>
        ensures said { (reading : Reading) (known : List (List ℕ)) (rows : Rows) → HasRead G.has G.names_of reading known self rows → ReturnsBy (G.finds reading) result (G.said_of reading known rows) }
        ensures not_read { IfErr result (λ fault. fault ≢ Read) }
    {
        let Named { names, gathered } = self;
        let names = names.into_names()?;
        Ok((gathered.finish()?, names))
    }
}
