//! Sets whose items are concatenated in one list.
ghost use Rattle.std.specs.Prelude.{◌≡◌, ◌<◌, ◌++◌, ◌^◌, [], ◌∷◌, IsTrue, ◌↔◌, OnErr, OnOk, length};
ghost use Rattle.basket_lists.specs.CountedSets.{count_at, set_at};
ghost use Rattle.basket_sets.specs.Itemset.{IsRising};

use crate::set_span::{SetSpan, end_of};
use std::alloc::{AllocError, Global};
use std::marker::Model;

/// Sets with their counts. The items of all sets are one list.
#[derive(Debug, Drop)]
pub struct PlainSets {
    items: Vec<u32>,
    spans: Vec<SetSpan>,
}

impl Model for PlainSets {
    ghost use Rattle.std.specs.Prelude.{All, List};
    ghost use Rattle.basket_lists.specs.Plain.{IsSpanOfSet, spanned_sets};
    ghost use Rattle.basket_sets.specs.declared.counted.Counted.{Counted as Set};

    ghost Value = { List Set };

    ghost view = { λ sets. spanned_sets sets.items.items sets.spans.items };

    ghost invariant = { λ sets. All (IsSpanOfSet sets.items.items) sets.spans.items };
}

impl PlainSets {
    /// The empty list.
    pub fn new(alloc: Global) -> Self
        ensures { result ≡ [] }
    {
        PlainSets {
            items: Vec::new(alloc),
            spans: Vec::new(alloc),
        }
    }

    pub fn len(&self) -> usize
        ensures value { result ≡ length self.now }
        ensures few { result < 2 ^ 63 }
    {
        self.spans.len()
    }

    pub fn is_empty(&self) -> bool
        ensures { IsTrue result ↔ (self.now ≡ []) }
    {
        self.spans.is_empty()
    }

    /// Adds a set with its count.
    pub fn push(&mut self, set: &[u32], count: u64) -> Result<(), AllocError>
        requires { IsRising set.now }
        ensures pushed { OnOk result (self.new ≡ self.old ++ record { set = set.now; count = count } ∷ []) }
        ensures kept { OnErr result (self.new ≡ self.old) }
    {
        let start = end_of(&self.items)?;
        self.items.extend_from_slice(set)?;
        let end = end_of(&self.items)?;
        self.spans.push(SetSpan { start, end, count })?;
        Ok(())
    }

    /// The items of the set at an index.
    pub fn items(&self, index: usize) -> &[u32]
        requires { index < length self.now }
        ensures items { result.now ≡ set_at self.now index }
        ensures rising { IsRising (set_at self.now index) }
    {
        self.spans[index].of(&self.items)
    }

    /// The items of the set at an index, or none if there is no such index.
    pub fn items_if_any(&self, index: usize) -> &[u32] {
        match self.spans.get(index) {
            Some(span) => span.of(&self.items),
            None => &[],
        }
    }

    /// The count of the set at an index.
    pub fn count(&self, index: usize) -> u64
        requires { index < length self.now }
        ensures { result ≡ count_at self.now index }
    {
        self.spans[index].count
    }

    /// A number that no item is above.
    pub fn greatest_item(&self) -> u32 {
        self.items.iter().copied().max().unwrap_or(0)
    }
}
