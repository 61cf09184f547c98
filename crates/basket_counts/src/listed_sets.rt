//! What lines that were read say.
ghost use Rattle.std.specs.Prelude.{◌≡◌, ◌≢◌, List, [], ◌∷◌, ◌++◌, map, Ok, Err, IfOk, OnOk};
ghost use Rattle.basket_read.specs.declared.fault.ReadFault.TheVariants.{Read};
ghost use Rattle.basket_counts.specs.Counts.{ListedSet, sets_among, counts_among};
ghost use Rattle.basket_counts.specs.ListedSets.{HasEntries, uncounted_at};
ghost use Rattle.basket_read.specs.Fault.{ReturnsList};

use basket_read::{CountedLine, ReadFault};
use basket_sets::Itemset;
use std::alloc::{AllocError, Global};

/// What lines say: their sets with the counts, 0 for one that is missing, and the first line
/// without one.
#[derive(Debug, Drop)]
pub struct ListedSets {
    lines: Vec<CountedLine>,
    uncounted: Option<u32>,
}

/// The line, if it has no count.
#[inline(always)]
fn uncounted_at(count: Option<u64>, line: u32) -> Option<u32>
    ensures { result ≡ uncounted_at count line }
{
    match count {
        Some(_) => None,
        None => Some(line),
    }
}

/// The sets of the lines.
fn sets_of(alloc: Global, lines: Vec<CountedLine>) -> Result<Vec<Itemset>, AllocError>
    ensures { IfOk result (λ sets. sets.items ≡ map (λ line. line.set) lines.items) }
{
    lines.into_iter().map(|line| line.set).collect(alloc)
}

impl ListedSets {
    pub fn new(alloc: Global) -> Self
        ensures { HasEntries result [] }
    {
        ListedSets {
            lines: Vec::new(alloc),
            uncounted: None,
        }
    }

    /// Adds the set of a line.
    #[inline(always)]
    #[tactic(auto, using(std::proofs::lemmas::Grind::common_steps, crate::proofs::ListedLemmas::uncounted_append))]
    pub fn add(&mut self, set: Itemset, count: Option<u64>, line: u32) -> Result<(), AllocError>
        ensures { (entries : List ListedSet) → HasEntries self.old entries →
            OnOk result (HasEntries self.new (entries ++ record { set = set; count = count; line = line } ∷ [])) }
    {
        self.uncounted = self.uncounted.or(uncounted_at(count, line));
        self.lines.push(CountedLine {
            set,
            count: count.unwrap_or(0),
            line,
        })?;
        Ok(())
    }

    /// Adds what the lines after these say.
    #[tactic(auto, using(std::proofs::lemmas::Grind::common_steps, crate::proofs::ListedLemmas::uncounted_append))]
    pub fn append(&mut self, mut later: ListedSets) -> Result<(), AllocError>
        ensures { (entries more : List ListedSet) → HasEntries self.old entries → HasEntries later more →
            OnOk result (HasEntries self.new (entries ++ more)) }
    {
        self.uncounted = self.uncounted.or(later.uncounted);
        self.lines.append(&mut later.lines)?;
        Ok(())
    }

    /// The sets.
    #[tactic(auto, using(std::proofs::lemmas::Grind::common_steps, crate::proofs::ListedLemmas::sets_are))]
    pub fn sets(self, alloc: Global) -> Result<Vec<Itemset>, ReadFault>
        ensures answers { (entries : List ListedSet) → HasEntries self entries → ReturnsList result (Ok (sets_among entries)) }
        ensures not_read { result ≢ Err Read }
    {
        let ListedSets { lines, .. } = self;
        Ok(sets_of(alloc, lines)?)
    }

    /// The sets with their counts, or the first that has none.
    #[tactic(auto, using(std::proofs::lemmas::Grind::common_steps, crate::proofs::ListedLemmas::counts_are))]
    pub fn counts(self) -> Result<Vec<CountedLine>, ReadFault>
        ensures answers { (entries : List ListedSet) → HasEntries self entries → ReturnsList result (counts_among entries) }
        ensures not_read { result ≢ Err Read }
    {
        let ListedSets { lines, uncounted } = self;
        match uncounted {
            Some(line) => Err(ReadFault::NoCount { line }),
            None => Ok(lines),
        }
    }
}
