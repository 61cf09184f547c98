//! Baskets of ranks in the form that suits the number of ranks.
ghost use Rattle.std.specs.Prelude.{◌≡◌, ◌≤◌, ◌<◌, ◌-◌, ◌==◌, All, IfOk};
ghost use Rattle.std.specs.List.{list_all};
ghost use Rattle.mine_baskets.specs.declared.span.Span.{Span as Run};
ghost use Rattle.mine_classes.specs.Conditional.{conditional};
ghost use Rattle.mine_conditional.specs.Conditional.{conditional_baskets};
ghost use Rattle.mine_baskets.specs.ListBaskets.{AreRankBaskets};
ghost use Rattle.mine_pairs.specs.Pairs.{pairs_of};
ghost use Rattle.mine_conditional.specs.Paths.{IsConditional, IsOrdered, is_branch};

use crate::conditional::Conditional;
use crate::local_numbers::LocalNumbers;
use crate::word_paths;
use mine_baskets::{Span, WordBaskets};
use mine_pairs::{Runs, Sums};
use std::alloc::{AllocError, Global};
use std::marker::Model;

/// Baskets from which the classes of ranks are mined: those of a conditional database as words if
/// there are at most 64 ranks, else by the runs of each rank. Below words all is words.
pub struct Paths {
    form: PathsForm,
}

impl Drop for Paths {
    fn drop(self) {
        let Paths { form: _ } = self;
    }
}

#[derive(Drop)]
pub enum PathsForm {
    Runs(Runs),
    Words(WordBaskets),
}

impl Model for Paths {
    ghost use Rattle.mine_baskets.specs.ListBaskets.{RankBaskets};
    ghost use Rattle.mine_conditional.specs.Paths.{form_baskets};

    ghost Value = { RankBaskets };

    ghost view = { λ p. form_baskets p.form };
}

impl Paths {
    /// Baskets by the runs of each rank.
    pub fn of_runs(runs: Runs) -> Self
        ensures { result ≡ runs }
    {
        Paths {
            form: PathsForm::Runs(runs),
        }
    }

    /// The baskets of a conditional database.
    pub fn of(alloc: Global, conditional: Conditional) -> Result<Self, AllocError>
        ensures { IfOk result (λ paths. paths ≡ conditional_baskets conditional) }
    {
        match conditional {
            Conditional::Lists(lists) => Ok(Paths::of_runs(Runs::of(alloc, lists)?)),
            Conditional::Words(words) => Ok(Paths {
                form: PathsForm::Words(words),
            }),
        }
    }

    /// How many ranks there are.
    pub fn ranks(&self) -> u32
        ensures { result ≡ self.now.ranks }
    {
        match &self.form {
            PathsForm::Runs(runs) => runs.ranks(),
            PathsForm::Words(baskets) => baskets.ranks(),
        }
    }

    /// Whether the prefix tree of the baskets is a single branch.
    pub fn is_branch(&self) -> bool
        requires { AreRankBaskets self.now }
        ensures { result ≡ is_branch self.now.baskets }
    {
        match &self.form {
            PathsForm::Runs(runs) => have_whole_paths(runs),
            PathsForm::Words(baskets) => word_paths::is_single_branch(baskets),
        }
    }

    /// The ranks below the rank that are frequent together with it, by a least support, each with
    /// the support of the pair.
    pub fn pairs(
        &self,
        alloc: Global,
        sums: &mut Sums,
        rank: u32,
        least: u64,
    ) -> Result<Vec<(u32, u64)>, AllocError>
        requires rank { rank < self.now.ranks }
        requires sums { self.now.ranks ≤ sums.old }
        ensures pairs { IfOk result (λ pairs. pairs.items ≡ pairs_of self.now.baskets least rank) }
        ensures sums { sums.new ≡ sums.old }
    {
        match &self.form {
            PathsForm::Runs(runs) => runs.pairs(alloc, sums, rank, least),
            PathsForm::Words(baskets) => word_paths::pairs(alloc, baskets, rank, least),
        }
    }

    /// The conditional database of a rank. The pairs are those of the rank by the same least
    /// support.
    pub fn below(
        &self,
        alloc: Global,
        numbers: &mut LocalNumbers,
        rank: u32,
        least: u64,
        pairs: &[(u32, u64)],
    ) -> Result<Conditional, AllocError>
        requires rank { rank < self.now.ranks }
        requires numbers { self.now.ranks ≤ numbers.old }
        requires pairs { pairs.now ≡ pairs_of self.now.baskets least rank }
        ensures below { IfOk result (λ below. IsConditional self.now.baskets least rank (conditional_baskets below)) }
        ensures numbers { numbers.new ≡ numbers.old }
    {
        match &self.form {
            PathsForm::Runs(runs) => Conditional::below(runs, alloc, numbers, rank, least, pairs),
            PathsForm::Words(baskets) => {
                let below = below_words(alloc, baskets, rank, least, pairs)?;
                Ok(Conditional::Words(below))
            }
        }
    }
}

/// The conditional database of a rank, by the words that have it.
fn below_words(
    alloc: Global,
    baskets: &WordBaskets,
    rank: u32,
    least: u64,
    pairs: &[(u32, u64)],
) -> Result<WordBaskets, AllocError>
    requires rank { rank < baskets.now.ranks }
    requires pairs { pairs.now ≡ pairs_of baskets.now.baskets least rank }
    ensures { IfOk result (IsConditional baskets.now.baskets least rank) }
{
    let below = word_paths::below(alloc, baskets, rank, pairs)?;
    Ok(below)
}

/// Whether the path of each run has all ranks below the run's, so that the prefix tree of the baskets
/// is a single branch.
fn have_whole_paths(runs: &Runs) -> bool
    requires { AreRankBaskets runs.now }
    ensures { result ≡ is_branch runs.now.baskets }
{
    for rank in 0..runs.ranks() {
        let paths = runs.of_rank(rank);
        if !are_whole(paths.spans, rank) {
            return false;
        }
    }
    true
}

/// Whether the path of each run has this length.
fn are_whole(runs: &[Span], depth: u32) -> bool
    requires { All IsOrdered runs.now }
    ensures { result ≡ list_all (λ (run : Run). run.end - run.start == depth) runs.now }
{
    runs.iter().all(|run| run.end - run.start == depth)
}
