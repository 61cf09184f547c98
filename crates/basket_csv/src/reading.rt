//! How records are read.
use crate::dialect::Dialect;
use basket_names::Seed;
use std::alloc::Global;

/// How records are read.
#[derive(Clone, Copy)]
pub struct Reading {
    pub alloc: Global,
    pub seed: Seed,
    pub dialect: Dialect,
    pub weighted: bool,
    /// Whether baskets are counted, and not kept.
    pub counting: bool,
}
