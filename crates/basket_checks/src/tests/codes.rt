ghost use Rattle.std.specs.Prelude.{◌≡◌, IfOk, length, nat_lt};
ghost use Rattle.std.specs.List.{list_all};
ghost use Rattle.basket_ranks.specs.Codes.{coding_of};

use super::{NINE_BASKETS, assert_text, database, text_of};
use basket_core::{Coded, Codes, Database, Itemset, Minimum, count_items};
use std::alloc::{AllocError, Global};
use std::test::Fail;

/// The baskets of the database as ranks.
fn coded_at(alloc: Global, database: &Database, minimum: Minimum) -> Result<Coded, AllocError>
    ensures { IfOk result (λ coded. coded ≡ coding_of database.now minimum) }
{
    let counts = count_items(alloc, database.baskets())?;
    Codes::of(alloc, &counts, database.total(), minimum)?.code(alloc, database)
}

/// Whether each of them is a rank.
fn are_ranks(coded: &Coded, ranks: &[u32]) -> bool
    ensures { result ≡ list_all (λ rank. nat_lt rank (length coded.now.items)) ranks.now }
{
    let count = coded.ranks();
    ranks.iter().all(|rank| *rank < count)
}

/// The set of the items of the ranks, if they are ranks.
fn decoded(alloc: Global, coded: &Coded, ranks: &[u32]) -> Result<Option<Itemset>, AllocError> {
    let set = Itemset::from_items(alloc, ranks)?;
    if are_ranks(coded, set.items()) {
        Ok(Some(coded.decode(set)))
    } else {
        Ok(None)
    }
}

/// The item of a rank, if it is a rank and is decoded to one item.
fn item_of(alloc: Global, coded: &Coded, rank: u32) -> Result<Option<u32>, AllocError> {
    let set = decoded(alloc, coded, &[rank])?;
    Ok(set.and_then(|set| match set.items() {
        [item] => Some(*item),
        _ => None,
    }))
}

/// How many ranks there are, and the items of those from 0 to 5.
fn ranked(alloc: Global, coded: &Coded) -> Result<(u32, [Option<u32>; 6]), AllocError> {
    let mut items = [None; 6];
    for rank in 0..6 {
        items[rank] = item_of(alloc, coded, rank as u32)?;
    }
    Ok((coded.ranks(), items))
}

/// The ranks and what they are of, and the baskets as ranks, as text.
fn coded_text(alloc: Global, coded: &Coded) -> Result<String, AllocError> {
    let (ranks, items) = ranked(alloc, coded)?;
    let baskets = text_of(alloc, coded.baskets())?;
    let (total, minimum) = (coded.total(), coded.minimum());
    format!(in alloc; "{ranks} {items:?} {total} {minimum:?} {baskets}")
}

/// That of the nine baskets.
fn nine_coded(alloc: Global) -> Result<String, Fail> {
    let database = database(alloc, NINE_BASKETS)?;
    let coded = coded_at(alloc, &database, Minimum::Count(2))?;
    Ok(coded_text(alloc, &coded)?)
}

/// Items 1 and 3 have one count, and so have 4 and 5.
#[test]
fn items_get_ranks_by_count_and_then_by_number(rt: HostRuntime) -> Result<(), Fail> {
    assert_text(
        &rt,
        nine_coded(rt.alloc())?.as_str(),
        "5 [Some(2), Some(1), Some(3), Some(4), Some(5), None] 9 Count(2) \
         0 1 4 (1)|0 3 (1)|0 2 (1)|0 1 3 (1)|1 2 (1)|0 2 (1)|1 2 (1)|0 1 2 4 (1)|0 1 2 (1)|",
    );
    Ok(())
}
