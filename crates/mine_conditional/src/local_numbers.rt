//! Baskets of the ranks of a list, by their indexes in it: their local numbers.
ghost use Rattle.std.specs.Prelude.{◌≡◌, ◌≤◌, ◌+◌, ◌++◌, ℕ, [], None, All, IfOk, false, length, map, replicate, slice_index_or, take};
ghost use Rattle.basket_ranks.specs.Codes.{coded_basket};
ghost use Rattle.basket_sets.specs.Counts.{AllBelow};
ghost use Rattle.basket_sets.specs.Itemset.{IsRising, has};
ghost use Rattle.mine_baskets.specs.Baskets.{baskets_in};
ghost use Rattle.mine_conditional.specs.Conditional.{conditional_baskets};
ghost use Rattle.mine_baskets.specs.ListBaskets.{AreRankBaskets, HaveSameWeights};
ghost use Rattle.mine_conditional.specs.LocalNumbers.{AreNumbers, by_table, table_numbers};
ghost use Rattle.mine_baskets.specs.Span.{IsWithin, baskets_at};

use crate::bit_table::{NEAR_RANKS, set_bits, words_of};
use crate::conditional::Conditional;
use mine_baskets::span::as_index;
use mine_baskets::words::WORD_RANKS;
use mine_baskets::{BASKETS_AHEAD, Baskets, ListBaskets, Span, WordBaskets};
use mine_pairs::make_room;
use std::alloc::{AllocError, Global};
use std::marker::Model;

/// A local number for each rank, used again from rank to rank, and by databases of fewer ranks.
pub struct LocalNumbers {
    /// An empty slot for each rank.
    of: Vec<Option<u32>>,
    /// No bits for each rank.
    bits: Vec<u64>,
}

impl Drop for LocalNumbers {
    fn drop(self) {
        let LocalNumbers { of: _, bits: _ } = self;
    }
}

impl Model for LocalNumbers {
    ghost use Rattle.std.specs.Prelude.{ℕ, None, ◌≡◌, length, replicate};

    ghost Value = { ℕ };

    ghost view = { λ p. length p.of.items };

    ghost invariant = { λ p. (p.of.items ≡ replicate (length p.of.items) None)
        × (length p.bits.items ≡ length p.of.items)
        × (p.bits.items ≡ replicate (length p.bits.items) 0) };
}

impl LocalNumbers {
    /// The local numbers of this many ranks: none yet.
    pub fn new(alloc: Global, count: u32) -> Result<Self, AllocError>
        ensures { IfOk result (λ numbers. numbers ≡ count) }
    {
        Ok(LocalNumbers {
            of: vec![in alloc; None; count as usize]?,
            bits: vec![in alloc; 0; count as usize]?,
        })
    }

    /// The baskets kept to some ranks, each as its number among these.
    pub fn coded(
        &mut self,
        alloc: Global,
        kept: &[u32],
        baskets: Baskets<'_>,
    ) -> Result<Conditional, AllocError>
        requires rises { IsRising kept.now }
        requires below { AllBelow self.old kept.now }
        requires lower { baskets.count ≤ self.old }
        ensures ranks { IfOk result (λ below. (conditional_baskets below).ranks ≡ length kept.now) }
        ensures ranked { IfOk result (λ below. AreRankBaskets (conditional_baskets below)) }
        ensures weights { IfOk result (λ below. HaveSameWeights (map (coded_basket kept.now) (baskets_in baskets.entry)) (conditional_baskets below).baskets) }
        ensures numbers { self.new ≡ self.old }
    {
        if kept.len() <= WORD_RANKS {
            let words = self.coded_by_words(alloc, kept, baskets)?;
            return Ok(Conditional::Words(words));
        }
        let lists = self.coded_by_lists(alloc, kept, baskets)?;
        Ok(Conditional::Lists(lists))
    }

    /// The baskets kept to many ranks, each as a list. They stay in the order in which they come:
    /// sorting them takes longer than neighbours with a common prefix save.
    fn coded_by_lists(
        &mut self,
        alloc: Global,
        kept: &[u32],
        baskets: Baskets<'_>,
    ) -> Result<ListBaskets, AllocError>
        requires rises { IsRising kept.now }
        requires below { AllBelow self.old kept.now }
        requires lower { baskets.count ≤ self.old }
        ensures ranks { IfOk result (λ lists. lists.ranks ≡ length kept.now) }
        ensures ranked { IfOk result AreRankBaskets }
        ensures weights { IfOk result (λ lists. HaveSameWeights (map (coded_basket kept.now) (baskets_in baskets.entry)) lists.baskets) }
        ensures numbers { self.new ≡ self.old }
    {
        put(&mut self.of, kept);
        let mut locals = Vec::new(alloc);
        let coded = coded_spans(alloc, &mut locals, &self.of, baskets);
        clear(&mut self.of, kept, None);
        let count = as_index(kept.len())?;
        Ok(ListBaskets::of_spans(count, locals, coded?))
    }

    /// The baskets kept to few ranks, each as a word.
    fn coded_by_words(
        &mut self,
        alloc: Global,
        kept: &[u32],
        baskets: Baskets<'_>,
    ) -> Result<WordBaskets, AllocError>
        requires few { length kept.now ≤ WORD_RANKS }
        requires rises { IsRising kept.now }
        requires below { AllBelow self.old kept.now }
        requires lower { baskets.count ≤ self.old }
        ensures ranks { IfOk result (λ words. words.ranks ≡ length kept.now) }
        ensures ranked { IfOk result AreRankBaskets }
        ensures weights { IfOk result (λ words. HaveSameWeights (map (coded_basket kept.now) (baskets_in baskets.entry)) words.baskets) }
        ensures numbers { self.new ≡ self.old }
    {
        set_bits(&mut self.bits, kept);
        let words = words_of(alloc, &self.bits, baskets);
        clear(&mut self.bits, kept, 0);
        WordBaskets::of(alloc, kept.len() as u32, words?)
    }
}

/// Writes the index of each rank of the list.
fn put(of: &mut [Option<u32>], kept: &[u32])
    requires none { of.old ≡ replicate (length of.old) None }
    requires rises { IsRising kept.now }
    requires below { AllBelow (length of.old) kept.now }
    ensures { AreNumbers kept.now of.new }
{
    for (at, rank) in kept.iter().enumerate() {
        of[*rank as usize] = Some(at as u32);
    }
}

/// Clears a table at the ranks of a list, which are all that have something there.
fn clear<T: Copy>(table: &mut [T], kept: &[u32], none: T)
    requires others { (rank : ℕ) → has kept.now rank ≡ false → slice_index_or table.old rank none ≡ none }
    requires below { AllBelow (length table.old) kept.now }
    ensures { table.new ≡ replicate (length table.old) none }
{
    for rank in kept {
        table[*rank as usize] = none;
    }
}

/// Puts the numbers of those ranks of a basket that have one after the first numbers of a list.
/// Returns how many these are then. A number is written for each rank, and the next one over it if
/// the rank has none: which have one can't be predicted, so a branch would cost more.
fn put_numbers(locals: &mut [u32], count: usize, of: &[Option<u32>], basket: &[u32]) -> usize
    requires room { count + length basket.now ≤ length locals.old }
    requires below { AllBelow (length of.now) basket.now }
    ensures within { result ≤ length locals.old }
    ensures numbers { take result locals.new ≡ take count locals.old ++ table_numbers of.now basket.now }
{
    let mut end = count;
    for rank in basket {
        let number = of[*rank as usize];
        locals[end] = number.unwrap_or(0);
        end += usize::from(number.is_some());
    }
    end
}

/// The baskets as the numbers that a table has for their ranks, concatenated, and where each is.
fn coded_spans(
    alloc: Global,
    locals: &mut Vec<u32>,
    of: &[Option<u32>],
    baskets: Baskets<'_>,
) -> Result<Vec<Span>, AllocError>
    requires none { locals.old.items ≡ [] }
    requires lower { baskets.count ≤ length of.now }
    ensures within { IfOk result (λ spans. All (IsWithin (length locals.new.items)) spans.items) }
    ensures placed { IfOk result (λ spans. baskets_at locals.new.items spans.items ≡ map (by_table of.now) (baskets_in baskets.entry)) }
{
    let mut spans = Vec::with_capacity(alloc, baskets.len())?;
    let mut end_ranks = [0u32; BASKETS_AHEAD];
    let mut end = 0;
    let is_far = baskets.ranks.len() > NEAR_RANKS;
    for index in 0..baskets.len() {
        if is_far && index % BASKETS_AHEAD == 0 {
            end_ranks = baskets.read_ahead(index);
        }
        // What was read has a slot: it never asks for room.
        let no_slot = usize::from(end_ranks[index % BASKETS_AHEAD] as usize >= of.len());
        let (basket, weight) = baskets.at(index);
        make_room(locals, end, basket.len().max(no_slot))?;
        let start = as_index(end)?;
        end = put_numbers(locals, end, of, basket);
        spans.push(Span {
            start,
            end: as_index(end)?,
            weight,
        })?;
    }
    locals.truncate(end);
    Ok(spans)
}
