//! Trees of FP-growth.
use super::{NINE_BASKETS, assert_text, coded};
use basket_core::Coded;
use mine_fp::FpTree;
use std::alloc::{AllocError, Global};
use std::fmt::Write;
use std::test::Fail;

/// How much the paths of a tree weigh together at most.
const MOST: u64 = 1 << 40;

/// The tree of coded baskets.
fn tree(alloc: Global, coded: &Coded) -> Result<FpTree, Fail> {
    let mut tree = FpTree::new(alloc);
    for basket in coded.baskets() {
        let room = basket.weight <= MOST && tree.total() <= MOST - basket.weight;
        if basket.weight == 0 || !room {
            return Err(Fail::from("a path weighs nothing or too much"));
        }
        tree.insert(basket.basket.items(), basket.weight)?;
    }
    Ok(tree)
}

/// The paths above each rank up to 5, each with its count, as text.
fn bases(alloc: Global, tree: &FpTree) -> Result<String, AllocError> {
    let mut text = String::new(alloc);
    for rank in 0..6 {
        let base = tree.base(alloc, rank)?;
        write!(text, "{base:?} ")?;
    }
    Ok(text)
}

/// What the tree of the nine baskets weighs, and its paths, as text.
fn nine_bases(alloc: Global) -> Result<String, Fail> {
    let coded = coded(alloc, NINE_BASKETS, 2)?;
    let tree = tree(alloc, &coded)?;
    let bases = bases(alloc, &tree)?;
    Ok(format!(in alloc; "{} {bases}", tree.total())?)
}

#[test]
fn a_tree_gives_the_paths_above_each_rank(rt: HostRuntime) -> Result<(), Fail> {
    assert_text(
        &rt,
        nine_bases(rt.alloc())?.as_str(),
        "9 [([], 7)] [([0], 4), ([], 2)] [([0], 2), ([1], 2), ([0, 1], 2)] \
         [([0], 1), ([0, 1], 1)] [([0, 1], 1), ([0, 1, 2], 1)] [] ",
    );
    Ok(())
}
