//! Conditional databases, of any kind.
ghost use Rattle.std.specs.Prelude.{◌≡◌, ◌≤◌, ◌<◌, ◌+◌, ◌∷◌, ℕ, Bool, false, List, [], IfNone, IfOk, IfSome, IsTrue, OnOk, length, slice_index_or};
ghost use Rattle.mine_search.specs.Straight.{IsStraight};
ghost use Rattle.mine_search.specs.Node.{Node, child, kept};

use std::alloc::{AllocError, Global};

/// The ranks that extend a set and stay frequent, and what tells which ranks extend it further: a
/// conditional database.
pub trait Projected: Drop + Sized {
    /// What is used again from database to database.
    type Scratch;

    /// How many steps the search took: joins, or conditional trees. Only calls that make them add to it.
    type Steps: Drop;

    ghost number: { Self.Steps → ℕ };

    /// Whether it represents the extensions of a node's set.
    ghost gives: { Self → Node → Type 0 };

    /// The ranks that extend the set, rising.
    ghost ranks: { Self → List ℕ };

    /// Whether a scratch may be lent to it.
    ghost serves: { Self.Scratch → Self → Type 0 };

    /// Whether a scratch has kept what was lent of it before.
    ghost keeps: { Self → Self.Scratch → Self.Scratch → Type 0 };

    /// Whether the sets are read off a single branch.
    ghost straight: { Self → Bool };

    /// How many ranks extend the set.
    fn len(&self) -> usize
        ensures { result ≡ length (ranks self.now) };

    /// The item of the rank at an index.
    fn item(&self, at: usize) -> u32
        requires inside { at < length (ranks self.now) }
        requires given { (node : Node) × gives self.now node }
        ensures { (node : Node) → gives self.now node
            → result ≡ slice_index_or node.over.items (slice_index_or (ranks self.now) at 0) 0 };

    /// The support of the set with the rank at an index.
    fn support(&self, at: usize) -> u64
        requires inside { at < length (ranks self.now) }
        requires given { (node : Node) × gives self.now node }
        ensures { (node : Node) → gives self.now node
            → result ≡ node.over.support (slice_index_or (ranks self.now) at 0 ∷ node.set) };

    /// The conditional database of the set with the rank at an index, unless it has no frequent rank.
    fn projected(
        &self,
        alloc: Global,
        at: usize,
        scratch: &mut Self::Scratch,
        steps: &mut Self::Steps,
    ) -> Result<Option<Self>, AllocError>
        requires inside { at < length (ranks self.now) }
        requires given { (node : Node) × gives self.now node }
        requires lent { serves scratch.old self.now }
        requires branching { straight self.now ≡ false }
        requires few { number steps.old + 4294967295 ≤ 18446744073709551615 }
        ensures below { IfOk result (λ below. IfSome below (λ inner. (node : Node) → gives self.now node
            → gives inner (child node (slice_index_or (ranks self.now) at 0)))) }
        ensures none { IfOk result (λ below. IfNone below ((node : Node) → gives self.now node
            → kept (child node (slice_index_or (ranks self.now) at 0)) ≡ [])) }
        ensures work { OnOk result ((node : Node) → gives self.now node
            → number steps.new ≡ number steps.old + node.over.work (slice_index_or (ranks self.now) at 0 ∷ node.set)) }
        ensures little { OnOk result (number steps.new ≤ number steps.old + 4294967295) }
        ensures inner { IfOk result (λ below. IfSome below (serves scratch.new)) }
        ensures lent { OnOk result (keeps self.now scratch.old scratch.new) }
        ensures wider { IfOk result (λ below. IfSome below (λ inner. (before after : Self.Scratch)
            → keeps inner before after → keeps self.now before after)) };

    fn number_of(steps: &Self::Steps) -> u64
        ensures { result ≡ number steps.now };

    /// Whether its ranks are those of a single branch, from which the sets are read off.
    fn is_straight(&self) -> bool
        requires given { (node : Node) × gives self.now node }
        ensures straight { result ≡ straight self.now }
        ensures branch { IsTrue result → (node : Node) → gives self.now node → IsStraight node };

    /// Gives what it has of the scratch back.
    fn give_back(self, scratch: &mut Self::Scratch)
        ensures { keeps self scratch.old scratch.new };

    /// The ranks are those with which the set is frequent.
    ghost ranks_are: { (base : Self) (node : Node) → gives base node → ranks base ≡ kept node };

    /// A scratch that is not used keeps all.
    ghost unused: { (base : Self) (scratch : Self.Scratch) → keeps base scratch scratch };

    /// What is kept by one use and by the next is kept by both.
    ghost used_twice: { (base : Self) (first second third : Self.Scratch) → keeps base first second → keeps base second third
        → keeps base first third };

    /// A scratch that has kept what was lent may be lent again.
    ghost lent_again: { (base : Self) (before after : Self.Scratch) → keeps base before after → serves before base → serves after base };
}
