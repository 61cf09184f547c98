//! The levels of Apriori, which workers find and join in parts of their prefixes.
ghost use Rattle.std.specs.Prelude.{◌≡◌, ◌≤◌, ◌<◌, ◌+◌, ◌++◌, [], ℕ, All, IfOk, OnOk, filter, length, map, slice_index, slice_index_or, slice_range, take};
ghost use Rattle.std.specs.Cmp.Lexicographic.{slice_cmp};
ghost use Rattle.std.specs.List.{flat_map};
ghost use Rattle.std.specs.List.Sorted.{IsStrictlySortedBy};
ghost use Rattle.std.specs.Ordering.{nat_cmp};
ghost use Rattle.std.specs.Thread.{IsSync};
ghost use Rattle.std.proofs.Props.{props};
ghost use Rattle.basket_ranks.specs.Codes.{IsCoding};
ghost use Rattle.basket_ranks.specs.Shards.{shard_of, shard_start};
ghost use Rattle.basket_sets.specs.Frequent.{is_frequent};
ghost use Rattle.basket_sets.specs.Itemset.{IsRising};
ghost use Rattle.basket_sets.specs.Support.{support_of};
ghost use Rattle.mine_apriori.specs.Join.{joined_groups};
ghost use Rattle.mine_apriori.specs.Levels.{decoded_sets};
ghost use Rattle.mine_supports.specs.Extensions.{kept, prefixes_of, sets_of};
ghost use Rattle.mine_supports.specs.Sizes.{AreOfSize};

use basket_core::{Coded, CountedSets, shard};
use mine_apriori::{Alone, Joiner, add_frequent, candidates_in};
use mine_pieces::{Cutting, Open, PartWork, Phase, by_pieces};
use mine_supports::{Extensions, PrefixRange};
use std::alloc::{AllocError, Global};
use std::thread::Threads;

/// The number of the phases that find and join a level.
const PHASE: u32 = 0;

/// Prefixes don't take equally long, so there are up to this many parts for each worker.
const PARTS_FOR_EACH: u32 = 16;

/// Fewer prefixes are not worth a claim.
const LEAST: usize = 256;

/// A level whose sets are joined, in this many parts of its prefixes.
#[derive(Drop)]
struct Joins<'a> {
    level: &'a Extensions,
    parts: u32,
    ghost sized: { AreOfSize (length (slice_index_or (prefixes_of level.now) 0 [])) (prefixes_of level.now) } by { Prim.hlevel props },
    ghost sorted: { IsStrictlySortedBy (slice_cmp nat_cmp) (prefixes_of level.now) } by { Prim.hlevel props },
    ghost rising: { All IsRising (sets_of level.now) } by { Prim.hlevel props },
}

impl PartWork<Extensions> for Joins<'_> {
    type Tools = ();

    ghost part_count = { λ work. work.parts };

    ghost are_tools = { λ work tools. Unit {0} };

    ghost is_value = { λ work part found. found ≡ joined_groups (sets_of work.level.now) (shard_of part work.parts work.level.now) };

    fn parts(&self) -> u32 {
        self.parts
    }

    fn tools(&self, _alloc: Global) -> Result<(), AllocError> {
        Ok(())
    }

    fn value(&self, alloc: Global, _tools: &mut (), part: u32) -> Result<Extensions, AllocError> {
        let (start, end) = shard(part, self.parts, self.level.prefixes().len());
        candidates_in(alloc, self.level, PrefixRange::new(start, end))
    }
}

/// Sets with their supports, of which the frequent ones are found in this many parts of the prefixes.
#[derive(Drop)]
struct Counted<'a> {
    coded: &'a Coded,
    sets: &'a Extensions,
    counts: &'a [u64],
    /// How many sets come before each part.
    before: Vec<usize>,
    found: &'a CountedSets,
    parts: u32,
    ghost coding: { IsCoding coded.now } by { Prim.hlevel props },
    ghost rising: { All IsRising (sets_of sets.now) } by { Prim.hlevel props },
    ghost counted: { counts.now ≡ map (support_of coded.now.baskets) (sets_of sets.now) },
    ghost starts: { (part : ℕ) → part < parts → slice_index before.items part ≡ length (sets_of (take (shard_start part parts (length sets.now)) sets.now)) },
    ghost long: { length before.items ≡ parts },
}

impl PartWork<(Extensions, CountedSets)> for Counted<'_> {
    type Tools = ();

    ghost part_count = { λ work. work.parts };

    ghost are_tools = { λ work tools. Unit {0} };

    ghost is_value = { λ work part value.
        (value.0 ≡ kept (is_frequent work.coded.now.baskets work.coded.now.minimum) (shard_of part work.parts work.sets.now))
        × (value.1 ≡ decoded_sets work.coded.now (filter (is_frequent work.coded.now.baskets work.coded.now.minimum) (sets_of (shard_of part work.parts work.sets.now)))) };

    fn parts(&self) -> u32 {
        self.parts
    }

    fn tools(&self, _alloc: Global) -> Result<(), AllocError> {
        Ok(())
    }

    fn value(
        &self,
        alloc: Global,
        _tools: &mut (),
        part: u32,
    ) -> Result<(Extensions, CountedSets), AllocError> {
        let (start, end) = shard(part, self.parts, self.sets.prefixes().len());
        let range = PrefixRange::new(start, end);
        let first = self.before[part as usize];
        let count = self.sets.count_in(range);
        let mut found = self.found.empty_like(alloc)?;
        let level = add_frequent(
            alloc,
            self.coded,
            self.sets,
            range,
            counts_from(self.counts, first, count),
            &mut found,
        )?;
        Ok((level, found))
    }
}

/// This many of the counts, from an index on.
fn counts_from(counts: &[u64], first: usize, count: usize) -> &[u64]
    requires { first + count ≤ length counts.now }
    ensures { result.now ≡ slice_range counts.now first (first + count) }
{
    &counts[first..first + count]
}

/// How many sets come before each part.
fn sets_before(alloc: Global, sets: &Extensions, parts: u32) -> Result<Vec<usize>, AllocError>
    ensures long { IfOk result (λ before. length before.items ≡ parts) }
    ensures before { IfOk result (λ before. (part : ℕ) → part < parts
        → slice_index before.items part ≡ length (sets_of (take (shard_start part parts (length sets.now)) sets.now))) }
{
    // No count is greater than that of all sets, which fits.
    let _all = sets.len();
    let mut before = Vec::with_capacity(alloc, parts as usize)?;
    let mut count = 0;
    for part in 0..parts {
        before.push(count)?;
        let (start, end) = shard(part, parts, sets.prefixes().len());
        count += sets.count_in(PrefixRange::new(start, end));
    }
    Ok(before)
}

/// The levels of all parts, one after another. Adds what they found to what is found.
fn put_together(
    alloc: Global,
    values: Vec<(Extensions, CountedSets)>,
    found: &mut CountedSets,
) -> Result<Extensions, AllocError>
    ensures level { IfOk result (λ level. level ≡ flat_map (λ value. value.0) values.items) }
    ensures found { OnOk result (found.new ≡ found.old ++ flat_map (λ value. value.1) values.items) }
{
    let mut levels = Vec::with_capacity(alloc, values.len())?;
    for (level, sets) in values {
        levels.push(level)?;
        found.append(alloc, sets)?;
    }
    Extensions::of_parts(alloc, levels)
}

/// In how many parts prefixes are cut.
fn part_count(prefixes: usize, workers: u32) -> u32
    requires { workers ≤ 64 }
    ensures { (1 ≤ result) × (result ≤ 65536) }
{
    let most = match workers {
        0 | 1 => 1,
        _ => workers * PARTS_FOR_EACH,
    };
    (prefixes / LEAST).clamp(1, most as usize) as u32
}

/// The workers that share a level, at most 64.
#[derive(Drop)]
pub struct Workers<'a, R> {
    pub rt: &'a R,
    pub count: u32,
    ghost some: { (1 ≤ count) × (count ≤ 64) },
}

impl<R: Threads + Sync> Joiner for Workers<'_, R> {
    ghost is_ready = { λ _. IsSync R.row };

    fn add_frequent(
        &self,
        alloc: Global,
        coded: &Coded,
        sets: &Extensions,
        counts: &[u64],
        found: &mut CountedSets,
    ) -> Result<Extensions, AllocError> {
        let parts = part_count(sets.prefixes().len(), self.count);
        if parts == 1 {
            return Alone.add_frequent(alloc, coded, sets, counts, found);
        }
        let values = {
            let work = Counted {
                coded,
                sets,
                counts,
                before: sets_before(alloc, sets, parts)?,
                found,
                parts,
            };
            let cutting = Cutting::new(self.count, parts);
            by_pieces(self.rt, alloc, &work, &Phase::new(PHASE, cutting, &Open))?
        };
        put_together(alloc, values, found)
    }

    fn candidates(&self, alloc: Global, level: &Extensions) -> Result<Extensions, AllocError> {
        let parts = part_count(level.prefixes().len(), self.count);
        if parts == 1 {
            return Alone.candidates(alloc, level);
        }
        let work = Joins { level, parts };
        let cutting = Cutting::new(self.count, parts);
        let values = by_pieces(self.rt, alloc, &work, &Phase::new(PHASE, cutting, &Open))?;
        Extensions::of_parts(alloc, values)
    }
}
