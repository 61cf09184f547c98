//! The prefix tree of weighted paths.
ghost use Rattle.std.specs.Prelude.{◌≡◌, ◌≤◌, ◌<◌, ◌+◌, ◌^◌, ◌++◌, [], ◌∷◌, ℕ, List, IfOk, MatchOption, OnErr, OnOk, drop, false, length, map, nat_eq, take, true, vec_capacity, vec_len};
ghost use Rattle.std.specs.List.{All, common_prefix_len};
ghost use Rattle.basket_sets.specs.declared.weighted.Weighted.{Weighted};
ghost use Rattle.basket_sets.specs.Database.{weighted};
ghost use Rattle.basket_sets.specs.Itemset.{IsRising};
ghost use Rattle.mine_classes.specs.Classes.{ends_in};
ghost use Rattle.mine_fp.specs.Tree.{AreNodes, StandsFor, base_of, front, longest, made, node_of, paths_of, raised};

use std::alloc::{AllocError, Global};
use std::marker::Model;

/// A node: where its path begins in the list of ranks, the length of its path, and the weight of the
/// paths that go through it.
#[derive(Clone, Copy)]
struct Node {
    start: usize,
    depth: usize,
    count: u64,
}

/// The prefix tree of weighted paths (Han, Pei and Yin 2000). Paths with a common prefix share
/// nodes.
#[derive(Drop)]
pub struct FpTree {
    /// The paths that made nodes, one after the other. The path of a node is a slice of this list:
    /// a copy for each node would take the square of a path's length.
    ranks: Vec<u32>,
    /// The nodes in the order in which they were made.
    nodes: Vec<Node>,
    total: u64,
}

impl Model for FpTree {
    ghost use Rattle.mine_fp.specs.Tree.{AreNodes, Tree, tree_of};

    ghost Value = { Tree };

    ghost view = { λ t. tree_of t.ranks.items t.nodes.items t.total };

    ghost invariant = { λ t. AreNodes t.ranks.items t.nodes.items t.total };
}

impl FpTree {
    /// The tree of no path.
    pub fn new(alloc: Global) -> Self
        ensures { StandsFor result [] }
    {
        FpTree {
            ranks: Vec::new(alloc),
            nodes: Vec::new(alloc),
            total: 0,
        }
    }

    /// Adds a path of some weight. All paths together weigh at most 2^40. The older nodes stay
    /// where they are.
    #[tactic(auto, using(crate::proofs::BranchLemmas::longest_within))]
    pub fn insert(&mut self, path: &[u32], weight: u64) -> Result<(), AllocError>
        requires rises { IsRising path.now }
        requires weighs { 1 ≤ weight }
        requires light { self.old.total + weight ≤ 2 ^ 40 }
        ensures ok { OnOk result ((paths : List Weighted) → StandsFor self.old paths → StandsFor self.new (paths ++ weighted path.now weight ∷ [])) }
        ensures order { OnOk result (take (length self.old.nodes) (paths_of self.new.nodes) ≡ paths_of self.old.nodes) }
        ensures err { OnErr result (self.new ≡ self.old) }
    {
        self.ranks.reserve(path.len())?;
        self.nodes.reserve(path.len())?;
        let known = add_weight(&self.ranks, &mut self.nodes, path, weight);
        add_nodes(&mut self.ranks, &mut self.nodes, path, known, weight);
        self.total += weight;
        Ok(())
    }

    /// The weight of all paths together.
    pub fn total(&self) -> u64
        ensures { result ≡ self.now.total }
    {
        self.total
    }

    /// For each node of the rank, in the order in which the nodes were made, the path above it and its
    /// count.
    pub fn base(&self, alloc: Global, rank: u32) -> Result<Vec<(Vec<u32>, u64)>, AllocError>
        ensures { IfOk result (λ base. map (λ entry. (entry.0.items, entry.1)) base.items ≡ base_of self.now rank) }
    {
        let mut base = Vec::new(alloc);
        for node in &self.nodes {
            let path = &self.ranks[node.start..node.start + node.depth];
            if let Some(above) = above(path, rank) {
                base.push((above.to_vec(alloc)?, node.count))?;
            }
        }
        Ok(base)
    }
}

/// A path without its last rank, if that is the given one.
#[tactic(auto, using(mine_classes::proofs::theory::Greatest::ends_push, crate::proofs::BaseLemmas::front_push))]
fn above(path: &[u32], rank: u32) -> Option<&[u32]>
    ensures { MatchOption result (ends_in rank path.now ≡ false) (λ above. (ends_in rank path.now ≡ true) × (above.now ≡ front path.now)) }
{
    let (last, above) = path.split_last()?;
    if *last == rank { Some(above) } else { None }
}

/// Adds a weight to each node whose path is a prefix of the given one. Returns the length of the
/// longest.
#[tactic(auto, using(crate::proofs::NodeLemmas::rest_at))]
fn add_weight(ranks: &[u32], nodes: &mut [Node], path: &[u32], weight: u64) -> usize
    requires inside { All (λ node. node.start + node.depth ≤ length ranks.now) nodes.old }
    requires light { All (λ node. node.count + weight < 2 ^ 64) nodes.old }
    ensures raised { nodes.new ≡ map (raised ranks.now path.now weight) nodes.old }
    ensures known { result ≡ longest path.now (paths_of (map (node_of ranks.now) nodes.old)) }
{
    let mut known = 0usize;
    let mut start = 0;
    let mut shared = shared_ranks(ranks, start, path);
    for node in nodes.iter_mut() {
        // Nodes that one path made are neighbours, so each path is compared only once.
        if node.start != start {
            start = node.start;
            shared = shared_ranks(ranks, start, path);
        }
        if node.depth <= shared {
            node.count += weight;
            known = known.max(node.depth);
        }
    }
    known
}

/// The length of the common prefix of a path and the ranks from an index on.
fn shared_ranks(ranks: &[u32], start: usize, path: &[u32]) -> usize
    requires { start ≤ length ranks.now }
    ensures { result ≡ common_prefix_len nat_eq (drop start ranks.now) path.now }
{
    let rest = &ranks[start..];
    let mut shared = 0;
    while shared < rest.len() && shared < path.len() && rest[shared] == path[shared] {
        shared += 1;
    }
    shared
}

/// Adds a node for each prefix of a path that is longer than `known`.
fn add_nodes(ranks: &mut Vec<u32>, nodes: &mut Vec<Node>, path: &[u32], known: usize, weight: u64)
    requires known { known ≤ length path.now }
    requires room { (vec_len ranks.old + length path.now ≤ vec_capacity ranks.old) × (vec_len nodes.old + length path.now ≤ vec_capacity nodes.old) }
    ensures { (total : ℕ) → weight ≤ total → AreNodes ranks.old.items nodes.old.items total
        → AreNodes ranks.new.items nodes.new.items total × (map (node_of ranks.new.items) nodes.new.items ≡ map (node_of ranks.old.items) nodes.old.items ++ made path.now weight known) }
{
    if known == path.len() {
        return;
    }
    let start = ranks.len();
    ranks.extend_from_slice(path).unwrap();
    for depth in known..path.len() {
        nodes
            .push(Node {
                start,
                depth: depth + 1,
                count: weight,
            })
            .unwrap();
    }
}
