//! How many workers are worth their threads.
ghost use Rattle.std.specs.Prelude.{◌≡◌, ◌≤◌};

use basket_core::Database;
use basket_plan::Plan;

/// Baskets that have no more subsets than this together are done before another thread has started.
const FEW_SUBSETS: u64 = 16_384;

/// A basket of so many items has more subsets than these.
const MANY_ITEMS: usize = 15;

/// The plan for a database. One worker is enough if the baskets have few subsets together, since
/// each frequent itemset is one of these.
pub fn plan_for(database: &Database, plan: &Plan) -> Plan
    ensures question { result.question ≡ plan.now.question }
    ensures miner { result.miner ≡ plan.now.miner }
    ensures pieces { result.pieces ≡ plan.now.pieces }
    ensures workers { result.workers ≤ plan.now.workers }
{
    if plan.workers() > 1 && has_few_subsets(database) {
        plan.with_workers(1)
    } else {
        *plan
    }
}

/// How many of the workers count this many sets in a database.
pub fn counting_workers(database: &Database, sets: usize, workers: u32) -> u32
    requires { (1 ≤ workers) × (workers ≤ 64) }
    ensures range { (1 ≤ result) × (result ≤ 64) }
    ensures within { result ≤ workers }
{
    if sets as u64 <= FEW_SUBSETS && has_few_subsets(database) {
        1
    } else {
        workers
    }
}

/// Whether the baskets have few subsets together.
fn has_few_subsets(database: &Database) -> bool {
    let mut subsets = 0u64;
    for basket in database.baskets() {
        let items = basket.basket.len().min(MANY_ITEMS);
        subsets = subsets.saturating_add(1 << items);
        if subsets > FEW_SUBSETS {
            return false;
        }
    }
    true
}
