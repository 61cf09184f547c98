use super::{NINE_BASKETS, assert_text, database, text_of};
use std::alloc::Global;
use std::test::Fail;

/// The nine baskets, of which equal ones are merged, and their weight as text.
fn merged(alloc: Global) -> Result<String, Fail> {
    let merged = database(alloc, NINE_BASKETS)?.merged(alloc)?;
    let baskets = text_of(alloc, merged.baskets())?;
    Ok(format!(in alloc; "{baskets} {}", merged.total())?)
}

#[test]
fn equal_baskets_become_one_at_the_first_place(rt: HostRuntime) -> Result<(), Fail> {
    assert_text(
        &rt,
        merged(rt.alloc())?.as_str(),
        "1 2 5 (1)|2 4 (1)|2 3 (2)|1 2 4 (1)|1 3 (2)|1 2 3 5 (1)|1 2 3 (1)| 9",
    );
    Ok(())
}
