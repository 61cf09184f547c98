//! The merging of equal neighbours among sorted baskets.
ghost use Rattle.std.specs.Prelude.{◌≡◌, ◌≤◌, ◌+◌, All, IfOk, OnOk, length};
ghost use Rattle.basket_sets.specs.Database.{MOST_WEIGHT, weighted};
ghost use Rattle.basket_sets.specs.Support.{total_of};
ghost use Rattle.mine_baskets.specs.Entries.{entry_baskets};
ghost use Rattle.mine_baskets.specs.ListBaskets.{AreRankBaskets, neighbours_merged, repeats_last, with_basket};
ghost use Rattle.mine_baskets.specs.Span.{IsWithin, baskets_at};

use crate::baskets::BASKETS_AHEAD;
use crate::entries::{KeyedBasket, ranks_among, read_ahead};
use crate::list_baskets::ListBaskets;
use crate::span::{Span, as_index};
use std::alloc::{AllocError, Global};

/// The baskets of entries, equal neighbours as one.
#[tactic(auto, using(std::proofs::lemmas::Grind::common_steps, crate::proofs::MergedLemmas::light_so_far, crate::proofs::MergedLemmas::entry_more))]
pub fn merged(
    alloc: Global,
    count: u32,
    entries: &[KeyedBasket<'_>],
) -> Result<ListBaskets, AllocError>
    requires { AreRankBaskets (record { ranks = count; baskets = entry_baskets entries.now }) }
    ensures { IfOk result (λ merged. merged ≡ record { ranks = count; baskets = neighbours_merged (entry_baskets entries.now) }) }
{
    let mut ranks = Vec::with_capacity(alloc, ranks_among(entries))?;
    let mut baskets = Vec::with_capacity(alloc, entries.len())?;
    let mut end_ranks = [0u32; BASKETS_AHEAD];
    for (number, entry) in entries.iter().enumerate() {
        if number % BASKETS_AHEAD == 0 {
            end_ranks = read_ahead(&entries[number..]);
        }
        // What was read is a rank: it never asks for room.
        ranks.reserve(usize::from(end_ranks[number % BASKETS_AHEAD] > count))?;
        add(&mut ranks, &mut baskets, entry.ranks, entry.weight)?;
    }
    Ok(ListBaskets {
        count,
        ranks,
        baskets,
    })
}

/// Whether the last basket is this one.
#[tactic(auto, using(std::proofs::lemmas::Grind::common_steps, crate::proofs::MergedLemmas::repeats_is))]
fn repeats(ranks: &[u32], baskets: &[Span], basket: &[u32]) -> bool
    requires { All (IsWithin (length ranks.now)) baskets.now }
    ensures { result ≡ repeats_last (baskets_at ranks.now baskets.now) basket.now }
{
    match baskets.last() {
        Some(last) => last.of(ranks) == basket,
        None => false,
    }
}

/// Adds a basket at the end, or its weight to the last one if that is equal.
#[tactic(auto, using(std::proofs::lemmas::Grind::common_steps, crate::proofs::theory::Neighbours::some_repeats, crate::proofs::MergedLemmas::raised_is, crate::proofs::MergedLemmas::raised_last))]
fn add(
    ranks: &mut Vec<u32>,
    baskets: &mut Vec<Span>,
    basket: &[u32],
    weight: u64,
) -> Result<(), AllocError>
    requires within { All (IsWithin (length ranks.old.items)) baskets.old.items }
    requires light { total_of (baskets_at ranks.old.items baskets.old.items) + weight ≤ MOST_WEIGHT }
    ensures within { OnOk result (All (IsWithin (length ranks.new.items)) baskets.new.items) }
    ensures added { OnOk result (baskets_at ranks.new.items baskets.new.items
        ≡ with_basket (baskets_at ranks.old.items baskets.old.items) (weighted basket.now weight)) }
{
    if repeats(ranks, baskets, basket) {
        let last = baskets.len() - 1;
        baskets[last].add_weight(weight);
        return Ok(());
    }
    let start = as_index(ranks.len())?;
    ranks.extend_from_slice(basket)?;
    let end = as_index(ranks.len())?;
    baskets.push(Span { start, end, weight })?;
    Ok(())
}
