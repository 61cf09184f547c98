//! Values by their numbers.
ghost use Rattle.std.specs.Prelude.{◌≡◌, None, Some, IfOk, map, replicate};
ghost use Rattle.std.specs.List.{flat_map};
ghost use Rattle.mine_round.specs.Totals.{HoldsNumbersBelow};
ghost use Rattle.mine_pieces.specs.Placed.{HaveRoom, placed};
ghost use Rattle.mine_pieces.specs.WorkerResult.{numbers_of};

use mine_round::Collector;
use std::alloc::{AllocError, Global};

/// The values by their numbers, of which there are this many.
#[tactic(auto, using(std::proofs::lemmas::Grind::common_steps))]
pub fn collected<X: Drop>(
    alloc: Global,
    count: u32,
    lists: Vec<Vec<(u32, X)>>,
) -> Result<Vec<X>, AllocError>
    requires { HoldsNumbersBelow count (flat_map (λ list. numbers_of list.items) lists.items) }
    ensures { IfOk result (λ values. map Some values.items ≡ placed (replicate count None) (flat_map (λ list. list.items) lists.items)) }
{
    let mut collector = Collector::new(alloc, count)?;
    for list in lists {
        put_all(&mut collector, list);
    }
    let Ok(values) = collector.finish() else {
        unreachable!()
    };
    Ok(values)
}

/// Puts the values in the places of their numbers.
fn put_all<X: Drop>(collector: &mut Collector<X>, list: Vec<(u32, X)>)
    requires { HaveRoom collector.old (numbers_of list.items) }
    ensures { collector.new ≡ placed collector.old list.items }
{
    for (number, value) in list {
        let Ok(()) = collector.put(number, value) else {
            unreachable!()
        };
    }
}
