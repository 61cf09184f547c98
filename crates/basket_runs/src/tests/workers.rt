use basket_core::{Database, MemSource, MineFault, parse_minimum};
use basket_mining::mine;
use basket_plan::{Ask, Miner, Plan};
use basket_read::{ReadFault, read_fimi};
use itoa::Buffer;
use mine_pieces::Gate;
use std::alloc::{AllocError, Global};
use std::process::Abort;
use std::test::Fail;
use std::thread::Threads;

mod gates;
mod limits;
mod mined;

const NINE_BASKETS: &[u8] = b"1 2 5\n2 4\n2 3\n1 2 4\n1 3\n2 3\n1 3\n1 2 3 5\n1 2 3\n";

const MINERS: &[(&str, Miner)] = &[
    ("apriori", Miner::Apriori),
    ("eclat", Miner::Eclat),
    ("eclat-diff", Miner::EclatDiff),
    ("eclat-bits", Miner::EclatBits),
    ("fpgrowth", Miner::FpGrowth),
];

/// The baskets of a good text.
fn database(alloc: Global, text: &[u8]) -> Result<Database, Fail> {
    match read_fimi(alloc, &mut MemSource::new(text, 65_536, None)) {
        Ok(database) => Ok(database),
        Err(ReadFault::Memory) => Err(Fail::from(AllocError)),
        Err(fault) => Err(Fail::from(fault)),
    }
}

/// A plan for the frequent sets.
fn plan(minimum: &str) -> Result<Plan, Fail> {
    match parse_minimum(minimum) {
        Some(minimum) => Ok(Plan::of(Ask::Sets, minimum)),
        None => Err(Fail::new("the text is no minimum")),
    }
}

/// Each of the numbers 1 to 40 on two lines of its own.
fn forty_items(alloc: Global) -> Result<Vec<u8>, AllocError> {
    let mut text = Vec::new(alloc);
    let mut buffer = Buffer::new();
    for place in 2..82u32 {
        text.extend_from_slice(buffer.format(place / 2).as_bytes())?;
        text.push(b'\n')?;
    }
    Ok(text)
}
