//! What the parts of a phase have, together.
ghost use Rattle.std.specs.Prelude.{◌≡◌, ◌<◌, ◌^◌, IfOk, map, sum};
ghost use Rattle.std.specs.List.{flat_map};

use basket_core::CountedSets;
use std::alloc::{AllocError, Global};

/// The class of a rank as items, and the work that it took.
pub type Class = (CountedSets, u64);

/// The classes without their work, and their work, added up.
#[tactic(auto, using(std::proofs::lemmas::Grind::common_steps, std::proofs::lemmas::List::nil_from_length))]
pub fn joined(alloc: Global, mined: Vec<Class>) -> Result<(Vec<CountedSets>, u64), AllocError>
    requires { sum (map (λ class. class.1) mined.items) < 2 ^ 64 }
    ensures classes { IfOk result (λ joined. joined.0.items ≡ map (λ class. class.0) mined.items) }
    ensures work { IfOk result (λ joined. joined.1 ≡ sum (map (λ class. class.1) mined.items)) }
{
    let mut classes = Vec::with_capacity(alloc, mined.len())?;
    let mut work = 0;
    for (class, done) in mined {
        classes.push_reserved(class);
        work += done;
    }
    Ok((classes, work))
}

/// The elements of all lists, one list after another.
pub fn in_a_row<T: Drop>(alloc: Global, lists: Vec<Vec<T>>) -> Result<Vec<T>, AllocError>
    ensures { IfOk result (λ all. all.items ≡ flat_map (λ list. list.items) lists.items) }
{
    lists.into_iter().flatten().collect(alloc)
}
