//! The frequent sets of a database.
ghost use Rattle.std.specs.Prelude.{◌≡◌, ◌<◌, ◌≤◌, ◌+◌, ◌^◌, ℕ, Err, IfOk, length};
ghost use Rattle.basket_mining.specs.Greatest.{greatest_support};
ghost use Rattle.basket_mining.specs.Mining.{IsWorkOf, IsWorkOver, candidate_work, join_work, tree_work, work_of};
ghost use Rattle.mine_limit.specs.declared.fault.MineFault.TheVariants.{TooMany};
ghost use Rattle.basket_ranks.specs.Codes.{coding_of, frequent_of_coding};
ghost use Rattle.basket_core.specs.Listing.{listing_of};
ghost use Rattle.basket_sets.specs.Counts.{item_supports};
ghost use Rattle.basket_sets.specs.Frequent.{frequent_of};
ghost use Rattle.basket_sets.specs.Support.{total_of};

use crate::apriori::apriori_shared;
use crate::class_miner::{EclatMiner, FpGrowthMiner};
use crate::greatest::greatest_count;
use crate::merging::merged_if_it_pays;
use basket_core::{Coded, Codes, Database, Frequent, deep};
use basket_plan::{Miner, Plan};
use mine_apriori::laws::candidates_by_sets;
use mine_fp::Forest;
use mine_limit::MineFault;
use mine_phases::{class_phase, mine_shared, runs_shared};
use mine_pieces::{Cutting, Gate, count_shared};
use mine_vertical::laws::class_joins_add_up;
use mine_vertical::{BitRow, DiffList, Row, TidList, Vertical};
use std::alloc::{AllocError, Global};
use std::marker::PhantomData;
use std::thread::Threads;

/// How much a miner did, as it is defined. The numbers of the miners that weren't asked for are 0.
#[derive(Clone, Copy, Debug, PartialEq, Eq)]
pub struct Work {
    /// The candidates that Apriori counted (Agrawal and Srikant 1994). Those of two items are added
    /// as one number, of which no list is made; the others are made and counted one by one.
    pub candidates: u64,
    /// The joins that Eclat made (Zaki 2000). Those of a rank with each rank below it are added as
    /// one number; the others are made one by one.
    pub joins: u64,
    /// The conditional trees of FP-growth (Han, Pei and Yin 2000). One that is its root alone is
    /// counted and not made; of the others the conditional database is made, and no nodes.
    pub trees: u64,
}

impl Work {
    fn of_candidates(candidates: u64) -> Self
        ensures { result ≡ record { candidates = candidates; joins = 0; trees = 0 } }
    {
        Work {
            candidates,
            joins: 0,
            trees: 0,
        }
    }

    fn of_joins(joins: u64) -> Self
        ensures { result ≡ record { candidates = 0; joins = joins; trees = 0 } }
    {
        Work {
            candidates: 0,
            joins,
            trees: 0,
        }
    }

    fn of_trees(trees: u64) -> Self
        ensures { result ≡ record { candidates = 0; joins = 0; trees = trees } }
    {
        Work {
            candidates: 0,
            joins: 0,
            trees,
        }
    }
}

/// The list of the frequent sets, if it is no longer than the plan's limit, and how much the plan's
/// miner did for it. The plan's workers pass the gate with each piece of the phase that counts the
/// items, which is 1, and of the one that mines class by class, or of those of Apriori that
/// count. No gate is passed for runs and pairs, nor where a level is found and joined, nor by one
/// worker that counts alone.
///
/// The fault is `TooMany` if there are more sets than the plan's limit, else `Memory`.
pub fn mine<R: Threads + Sync, G: Gate + Sync>(
    rt: &R,
    alloc: Global,
    database: &Database,
    plan: &Plan,
    gate: &G,
) -> Result<(Frequent, Work), MineFault>
    ensures sets { IfOk result (λ mined. mined.0.sets ≡ frequent_of database.now plan.now.question.minimum) }
    ensures total { IfOk result (λ mined. mined.0.total ≡ total_of database.now) }
    ensures within { IfOk result (λ mined. length mined.0.sets ≤ plan.now.question.limit) }
    ensures work { IfOk result (λ mined. IsWorkOf plan.now.miner database.now plan.now.question.minimum mined.1) }
    ensures too_many { (most : ℕ) → result ≡ Err (TooMany most)
        → (most ≡ plan.now.question.limit) × (plan.now.question.limit < length (frequent_of database.now plan.now.question.minimum)) }
{
    let (frequent, work, _) = mine_in_place(rt, alloc, database.copied(alloc)?, plan, gate)?;
    Ok((frequent, work))
}

/// Mines as `mine` does, and returns the greatest support of an item too, or 0 if there is none. The
/// ranks of the baskets take the room of their items.
pub fn mine_in_place<R: Threads + Sync, G: Gate + Sync>(
    rt: &R,
    alloc: Global,
    database: Database,
    plan: &Plan,
    gate: &G,
) -> Result<(Frequent, Work, u64), MineFault>
    ensures sets { IfOk result (λ mined. mined.0.sets ≡ frequent_of database plan.now.question.minimum) }
    ensures total { IfOk result (λ mined. mined.0.total ≡ total_of database) }
    ensures within { IfOk result (λ mined. length mined.0.sets ≤ plan.now.question.limit) }
    ensures work { IfOk result (λ mined. IsWorkOf plan.now.miner database plan.now.question.minimum mined.1) }
    ensures greatest { IfOk result (λ mined. mined.2 ≡ greatest_support database) }
    ensures too_many { (most : ℕ) → result ≡ Err (TooMany most)
        → (most ≡ plan.now.question.limit) × (plan.now.question.limit < length (frequent_of database plan.now.question.minimum)) }
{
    let counts = count_shared(rt, alloc, database.baskets(), cutting(plan), gate)?;
    let greatest = greatest_count(&counts);
    let (frequent, work) = mine_counted(rt, alloc, database, counts, plan, gate)?;
    Ok((frequent, work, greatest))
}

/// Mines a database of which the items are counted.
fn mine_counted<R: Threads + Sync, G: Gate + Sync>(
    rt: &R,
    alloc: Global,
    database: Database,
    counts: Vec<(u32, u64)>,
    plan: &Plan,
    gate: &G,
) -> Result<(Frequent, Work), MineFault>
    requires counts { counts.items ≡ item_supports database }
    ensures sets { IfOk result (λ mined. mined.0.sets ≡ frequent_of database plan.now.question.minimum) }
    ensures total { IfOk result (λ mined. mined.0.total ≡ total_of database) }
    ensures within { IfOk result (λ mined. length mined.0.sets ≤ plan.now.question.limit) }
    ensures work { IfOk result (λ mined. IsWorkOf plan.now.miner database plan.now.question.minimum mined.1) }
    ensures too_many { (most : ℕ) → result ≡ Err (TooMany most)
        → (most ≡ plan.now.question.limit) × (plan.now.question.limit < length (frequent_of database plan.now.question.minimum)) }
{
    let limit = plan.limit();
    let coded = coded(rt, alloc, database, counts, plan)?;
    if deep(alloc, &coded, settling_size(limit))? {
        return Err(MineFault::TooMany { limit });
    }
    mine_coded(rt, alloc, coded, plan, gate)
}

/// Mines a database that is coded.
fn mine_coded<R: Threads + Sync, G: Gate + Sync>(
    rt: &R,
    alloc: Global,
    coded: Coded,
    plan: &Plan,
    gate: &G,
) -> Result<(Frequent, Work), MineFault>
    ensures list { IfOk result (λ mined. mined.0 ≡ listing_of coded) }
    ensures within { IfOk result (λ mined. length mined.0.sets ≤ plan.now.question.limit) }
    ensures work { IfOk result (λ mined. IsWorkOver coded (work_of plan.now.miner) mined.1) }
    ensures too_many { (most : ℕ) → result ≡ Err (TooMany most)
        → (most ≡ plan.now.question.limit) × (plan.now.question.limit < length (frequent_of_coding coded)) }
{
    let limit = plan.limit();
    let cutting = cutting(plan);
    match plan.miner() {
        Miner::Apriori => by_apriori(rt, alloc, coded, limit, cutting, gate),
        Miner::Eclat => by_eclat::<R, G, TidList>(rt, alloc, coded, limit, cutting, gate),
        Miner::EclatDiff => by_eclat::<R, G, DiffList>(rt, alloc, coded, limit, cutting, gate),
        Miner::EclatBits => by_eclat::<R, G, BitRow>(rt, alloc, coded, limit, cutting, gate),
        Miner::FpGrowth => by_fp_growth(rt, alloc, coded, limit, cutting, gate),
    }
}

/// How the work of each phase is cut.
pub fn cutting(plan: &Plan) -> Cutting
    ensures workers { result.workers ≡ plan.now.workers }
    ensures pieces { result.pieces ≡ plan.now.pieces }
{
    Cutting::new(plan.workers(), plan.pieces())
}

/// The baskets of a database, coded by workers. Its items are counted.
fn coded<R: Threads + Sync>(
    rt: &R,
    alloc: Global,
    database: Database,
    counts: Vec<(u32, u64)>,
    plan: &Plan,
) -> Result<Coded, AllocError>
    requires { counts.items ≡ item_supports database }
    ensures { IfOk result (λ coded. coded ≡ coding_of database plan.now.question.minimum) }
{
    let codes = Codes::of(alloc, &counts, database.total(), plan.minimum())?;
    Ok(codes.code_shared(rt, database, plan.workers()))
}

/// The list of the frequent sets by Apriori, and how many candidates it counted.
#[tactic(auto, using(std::proofs::lemmas::Grind::common_steps, std::proofs::lemmas::Result::err_from_is_err_and, crate::proofs::MiningLemmas::merged_listing))]
fn by_apriori<R: Threads + Sync, G: Gate + Sync>(
    rt: &R,
    alloc: Global,
    coded: Coded,
    limit: u32,
    cutting: Cutting,
    gate: &G,
) -> Result<(Frequent, Work), MineFault>
    ensures list { IfOk result (λ mined. mined.0 ≡ listing_of coded) }
    ensures within { IfOk result (λ mined. length mined.0.sets ≤ limit) }
    ensures work { IfOk result (λ mined. IsWorkOver coded candidate_work mined.1) }
    ensures too_many { (most : ℕ) → result ≡ Err (TooMany most) → (most ≡ limit) × (limit < length (frequent_of_coding coded)) }
{
    let merged = merged_if_it_pays(alloc, coded)?;
    let (frequent, candidates) = apriori_shared(rt, alloc, &merged, limit, cutting, gate)?;
    candidates_by_sets();
    Ok((frequent, Work::of_candidates(candidates)))
}

/// The list of the frequent sets by Eclat over rows of one type, and how many joins were made for it.
fn by_eclat<R: Threads + Sync, G: Gate + Sync, T: Row + Sync>(
    rt: &R,
    alloc: Global,
    coded: Coded,
    limit: u32,
    cutting: Cutting,
    gate: &G,
) -> Result<(Frequent, Work), MineFault>
    ensures list { IfOk result (λ mined. mined.0 ≡ listing_of coded) }
    ensures within { IfOk result (λ mined. length mined.0.sets ≤ limit) }
    ensures work { IfOk result (λ mined. IsWorkOver coded join_work mined.1) }
    ensures too_many { (most : ℕ) → result ≡ Err (TooMany most) → (most ≡ limit) × (limit < length (frequent_of_coding coded)) }
{
    class_joins_add_up();
    let (runs, items) = runs_shared(rt, alloc, coded, cutting)?;
    let miner = EclatMiner::<T> {
        vertical: Vertical::of_runs(alloc, &items, runs)?,
        rows: PhantomData,
    };
    let phase = class_phase(cutting, gate);
    let (frequent, joins) = mine_shared(rt, alloc, &items, miner, limit, &phase)?;
    Ok((frequent, Work::of_joins(joins)))
}

/// The list of the frequent sets by FP-growth, and how many conditional trees it has.
fn by_fp_growth<R: Threads + Sync, G: Gate + Sync>(
    rt: &R,
    alloc: Global,
    coded: Coded,
    limit: u32,
    cutting: Cutting,
    gate: &G,
) -> Result<(Frequent, Work), MineFault>
    ensures list { IfOk result (λ mined. mined.0 ≡ listing_of coded) }
    ensures within { IfOk result (λ mined. length mined.0.sets ≤ limit) }
    ensures work { IfOk result (λ mined. IsWorkOver coded tree_work mined.1) }
    ensures too_many { (most : ℕ) → result ≡ Err (TooMany most) → (most ≡ limit) × (limit < length (frequent_of_coding coded)) }
{
    let _coding = coded.baskets();
    let (runs, items) = runs_shared(rt, alloc, coded, cutting)?;
    let forest = Forest::of_runs(alloc, &items, runs)?;
    let miner = FpGrowthMiner(forest);
    let phase = class_phase(cutting, gate);
    let (frequent, trees) = mine_shared(rt, alloc, &items, miner, limit, &phase)?;
    Ok((frequent, Work::of_trees(trees)))
}

/// The least number of items of a set that has more nonempty subsets than the limit.
fn settling_size(limit: u32) -> u32
    ensures some { 1 ≤ result }
    ensures settles { limit + 1 < 2 ^ result }
{
    (u64::from(limit) + 1).ilog2() + 1
}
