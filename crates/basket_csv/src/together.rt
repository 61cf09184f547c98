//! Parts that come one after another, put together.
ghost use Rattle.std.specs.Prelude.{◌≡◌, ◌<◌, ◌++◌, List, ℕ, [], MatchOption, length, IfOk};
ghost use Rattle.std.specs.List.{range_with_len};
ghost use Rattle.std.specs.Thread.{IsSync};
ghost use Rattle.basket_names.specs.Names.{in_order};
ghost use Rattle.basket_csv.specs.declared.reading.Reading.{Reading};
ghost use Rattle.basket_csv.specs.Gathering.{HasRead};
ghost use Rattle.basket_csv.specs.Rows.{InParts, Rows};
ghost use Rattle.basket_csv.specs.Together.{AreTogether, HaveParts, IsNumbered, NumbersTogether};

use crate::gathering::{Gathering, Named};
use crate::reading::Reading;
use basket_names::{Names, Numbering};
use basket_sets::rename;
use std::alloc::{AllocError, Global};
use std::thread::{self, Threads, join};

/// What was gathered of a part, and the number that each of its names has among those of others.
#[derive(Drop)]
struct Renumbered<G> {
    gathered: G,
    numbers: Vec<u32>,
}

/// Names, and parts whose names have numbers among these.
type Together<G> = (Numbering, Vec<Renumbered<G>>);

/// What was gathered of all parts, whose names are numbered after those that are known.
pub fn put_together<R: Threads + Sync, G: Gathering>(
    rt: &R,
    reading: Reading,
    parts: Vec<Named<G>>,
    known: Names,
) -> Result<Named<G>, AllocError>
    requires { (rows : Rows) × InParts (HasRead G.has G.names_of reading []) parts.items rows }
    ensures { (rows : Rows) → InParts (HasRead G.has G.names_of reading []) parts.items rows → IfOk result (λ all. HasRead G.has G.names_of reading known all rows) }
{
    let (names, parts) = numbered_together(rt, reading, parts, known)?;
    let gathered = gathered_together(rt, reading, parts)?;
    Ok(Named { names, gathered })
}

/// What was gathered of parts whose names are numbered together.
fn gathered_together<R: Threads + Sync, G: Gathering>(
    rt: &R,
    reading: Reading,
    parts: Vec<Renumbered<G>>,
) -> Result<G, AllocError>
    requires { (names : List (List ℕ)) × (rows : Rows) × InParts (IsNumbered G.has G.names_of reading names) parts.items rows }
    ensures { (names : List (List ℕ)) (rows : Rows) → InParts (IsNumbered G.has G.names_of reading names) parts.items rows → IfOk result (λ all. G.has all reading names rows) }
{
    let renamed = thread::map_vec(
        rt,
        parts,
        &|part: Renumbered<G>| -> Result<G, AllocError>
            requires { (reading : Reading) × (names : List (List ℕ)) × (rows : Rows) × IsNumbered G.has G.names_of reading names part rows }
            ensures { (reading : Reading) (names : List (List ℕ)) (rows : Rows) → IsNumbered G.has G.names_of reading names part rows → IfOk result (λ renamed. G.has renamed reading names rows) }
        {
            let Renumbered { gathered, numbers } = part;
            gathered.renamed(&numbers)
        },
    )?;
    let mut all = None;
    for part in renamed {
        all = Some(joined(all, part?)?);
    }
    match all {
        Some(all) => Ok(all),
        None => Ok(G::new(reading)),
    }
}

/// What was gathered of some parts, if there are any, and of the next.
fn joined<G: Gathering>(all: Option<G>, part: G) -> Result<G, AllocError>
    requires { (reading : Reading) × (names : List (List ℕ)) × (more : Rows) × G.has part reading names more }
    ensures { (reading : Reading) (names : List (List ℕ)) (rows more : Rows) → MatchOption all (rows ≡ []) (λ all. G.has all reading names rows) → G.has part reading names more
        → IfOk result (λ joined. G.has joined reading names (rows ++ more)) }
{
    match all {
        Some(all) => all.followed_by(part),
        None => Ok(part),
    }
}

/// The names of parts that come one after another, numbered after those that are known.
fn numbered_together<R: Threads + Sync, G: Gathering>(
    rt: &R,
    reading: Reading,
    parts: Vec<Named<G>>,
    known: Names,
) -> Result<Together<G>, AllocError>
    requires { HaveParts G.has G.names_of reading parts.items }
    ensures { (rows : Rows) → InParts (HasRead G.has G.names_of reading []) parts.items rows → IfOk result (λ all. AreTogether G.has G.names_of reading (in_order known) all.0 all.1.items rows) }
{
    let all = all_together(rt, reading, parts)?;
    if known.is_empty() {
        return Ok(all);
    }
    let known = Numbering::of(reading.alloc, reading.seed, known)?;
    followed_by((known, Vec::new(reading.alloc)), all)
}

/// The names of parts that come one after another. Those of both halves are numbered side by side, and
/// then those of the second among those of the first.
#[cycle(together)]
fn all_together<R: Threads + Sync, G: Gathering>(
    rt: &R,
    reading: Reading,
    mut parts: Vec<Named<G>>,
) -> Result<Together<G>, AllocError>
    requires { HaveParts G.has G.names_of reading parts.items }
    ensures { NumbersTogether G.has G.names_of reading parts.items result }
{
    if parts.len() < 2 {
        return at_most_one(reading, parts);
    }
    let later = parts.split_off(parts.len() / 2)?;
    let (first, later) = both_together(rt, reading, parts, later);
    followed_by(first?, later?)
}

/// The names of some parts, and those of others.
#[cycle(together)]
fn both_together<R: Threads + Sync, G: Gathering>(
    rt: &R,
    reading: Reading,
    parts: Vec<Named<G>>,
    others: Vec<Named<G>>,
) -> (
    Result<Together<G>, AllocError>,
    Result<Together<G>, AllocError>,
)
    requires some { (0 < length parts.items) × (0 < length others.items) }
    requires parts { HaveParts G.has G.names_of reading parts.items }
    requires others { HaveParts G.has G.names_of reading others.items }
    ensures parts { NumbersTogether G.has G.names_of reading parts.items result.0 }
    ensures others { NumbersTogether G.has G.names_of reading others.items result.1 }
{
    let (later, first) = join(
        rt,
        || -> Result<Together<G>, AllocError>
            requires { IsSync R.row × HaveParts G.has G.names_of reading others.items }
            ensures { NumbersTogether G.has G.names_of reading others.items result }
        { all_together(rt, reading, others) },
        || -> Result<Together<G>, AllocError>
            requires { IsSync R.row × HaveParts G.has G.names_of reading parts.items }
            ensures { NumbersTogether G.has G.names_of reading parts.items result }
        { all_together(rt, reading, parts) },
    );
    (first, later)
}

/// The names of one part, as it has them, or of none.
fn at_most_one<G: Gathering>(
    reading: Reading,
    mut parts: Vec<Named<G>>,
) -> Result<Together<G>, AllocError>
    requires { length parts.items < 2 }
    ensures { NumbersTogether G.has G.names_of reading parts.items result }
{
    let mut all = Vec::new(reading.alloc);
    let Some(part) = parts.pop() else {
        return Ok((Numbering::new(reading.alloc, reading.seed), all));
    };
    let Named { names, gathered } = part;
    let numbers = first_numbers(reading.alloc, names.len())?;
    all.push(Renumbered { gathered, numbers })?;
    Ok((names, all))
}

/// So many numbers, from 0 on.
fn first_numbers(alloc: Global, count: usize) -> Result<Vec<u32>, AllocError>
    ensures { IfOk result (λ numbers. numbers.items ≡ range_with_len 0 count) }
{
    match u32::try_from(count) {
        Ok(count) => (0..count).collect(alloc),
        Err(_) => Err(AllocError),
    }
}

/// Names with those of parts that come next, which were numbered apart.
fn followed_by<G: Gathering>(
    first: Together<G>,
    later: Together<G>,
) -> Result<Together<G>, AllocError>
    requires { (reading : Reading) × (rows : Rows) × AreTogether G.has G.names_of reading [] later.0 later.1.items rows }
    ensures { (reading : Reading) (known : List (List ℕ)) (rows more : Rows) → AreTogether G.has G.names_of reading known first.0 first.1.items rows → AreTogether G.has G.names_of reading [] later.0 later.1.items more
        → IfOk result (λ all. AreTogether G.has G.names_of reading known all.0 all.1.items (rows ++ more)) }
{
    let (mut names, mut parts) = first;
    let (later_names, later_parts) = later;
    let among = names.numbers_of(later_names.into_names()?)?;
    for part in later_parts {
        let Renumbered {
            gathered,
            mut numbers,
        } = part;
        rename(&mut numbers, &among);
        parts.push(Renumbered { gathered, numbers })?;
    }
    Ok((names, parts))
}
