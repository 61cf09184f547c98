//! Consequents of the rules with one union, each as the bits of its items in the union.
ghost use Rattle.std.specs.Prelude.{◌≡◌, ◌≤◌, ◌<◌, ◌++◌, IfOk, OnOk, length, not, take};
ghost use Rattle.basket_rules.specs.Consequents.{chosen, has_bit, longer, longer_by, no_bits, with_bit};

use std::alloc::{AllocError, Global};

/// How many indexes have a bit in a word. No list has the subsets of a set of this many items.
pub const MOST_BITS: usize = 64;

/// A consequent: a bit for the index of each of its items in the union, and the first of these
/// indexes.
#[derive(Clone, Copy, Debug)]
pub struct Consequent {
    pub bits: u64,
    pub first: usize,
}

impl Consequent {
    /// The empty set.
    pub fn none() -> Self
        ensures { result ≡ no_bits }
    {
        Consequent {
            bits: 0,
            first: MOST_BITS,
        }
    }

    /// The set with an index before its first.
    fn with(&self, index: usize) -> Self
        requires { index < MOST_BITS }
        ensures { result ≡ with_bit index self.now }
    {
        Consequent {
            bits: self.bits | (1 << index),
            first: index,
        }
    }
}

/// The consequents with one index more before their first, in report order if these are.
pub fn longer_consequents(
    alloc: Global,
    met: &[Consequent],
    count: usize,
) -> Result<Vec<Consequent>, AllocError>
    requires { count ≤ MOST_BITS }
    ensures { IfOk result (λ consequents. consequents.items ≡ longer count met.now) }
{
    let mut consequents = Vec::with_capacity(alloc, met.len())?;
    for index in 0..count {
        add_longer(&mut consequents, met, index)?;
    }
    Ok(consequents)
}

/// Adds the consequents with this index before their first.
fn add_longer(
    consequents: &mut Vec<Consequent>,
    met: &[Consequent],
    index: usize,
) -> Result<(), AllocError>
    requires { index < MOST_BITS }
    ensures { OnOk result (consequents.new.items ≡ consequents.old.items ++ longer_by met.now index) }
{
    for consequent in met {
        if index < consequent.first {
            consequents.push(consequent.with(index))?;
        }
    }
    Ok(())
}

/// The room of the sides of a rule.
#[derive(Debug, Drop)]
pub struct Sides {
    pub antecedent: Vec<u32>,
    pub consequent: Vec<u32>,
}

impl Sides {
    /// Nothing is allocated.
    pub fn new(alloc: Global) -> Self {
        Sides {
            antecedent: Vec::new(alloc),
            consequent: Vec::new(alloc),
        }
    }

    /// Makes `consequent` the items of the union at the bits of a word, and `antecedent` the
    /// others. Each item is put on both sides, and stays on one: no branch depends on the word.
    pub(crate) fn fill(&mut self, union: &[u32], bits: u64) -> Result<(), AllocError>
        ensures antecedent { OnOk result (self.new.antecedent.items ≡ chosen (λ index. not (has_bit bits index)) union.now) }
        ensures consequent { OnOk result (self.new.consequent.items ≡ chosen (has_bit bits) union.now) }
    {
        self.antecedent.resize(union.len(), 0)?;
        self.consequent.resize(union.len(), 0)?;
        let (antecedent, consequent) = part(
            union,
            bits,
            &mut self.antecedent,
            &mut self.consequent,
        );
        self.antecedent.truncate(antecedent);
        self.consequent.truncate(consequent);
        Ok(())
    }
}

/// Puts the items of the union at the bits of a word at the beginning of `consequent`, and the
/// others at the beginning of `antecedent`. Returns how many these and those are.
fn part(union: &[u32], bits: u64, antecedent: &mut [u32], consequent: &mut [u32]) -> (usize, usize)
    requires antecedent { length antecedent.old ≡ length union.now }
    requires consequent { length consequent.old ≡ length union.now }
    ensures antecedent { take result.0 antecedent.new ≡ chosen (λ index. not (has_bit bits index)) union.now }
    ensures consequent { take result.1 consequent.new ≡ chosen (has_bit bits) union.now }
{
    let mut rest = bits;
    let mut in_antecedent = 0;
    let mut in_consequent = 0;
    for item in union {
        antecedent[in_antecedent] = *item;
        consequent[in_consequent] = *item;
        let taken = (rest % 2) as usize;
        in_antecedent += 1 - taken;
        in_consequent += taken;
        rest /= 2;
    }
    (in_antecedent, in_consequent)
}
