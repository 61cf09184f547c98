//! How a file is read as baskets, and why.
use crate::said::Said;
use crate::table::Table;
use basket_pairs::{Encoding, Recipe};
use std::alloc::{AllocError, Global};

/// What has to be done to a file before it is mined.
#[derive(Clone, Copy, PartialEq, Eq)]
pub enum Form {
    Fimi,
    /// Sets with their counts in parentheses.
    Counts,
    Baskets,
    WeightedBaskets,
    Single,
    /// Its pairs have to be written first.
    Pairs,
}

impl Form {
    /// The options that say it.
    pub fn options(self) -> &'static [&'static str] {
        match self {
            Form::Fimi => &[],
            Form::Counts => &["--form", "counts"],
            Form::Baskets => &["--form", "baskets"],
            Form::WeightedBaskets => &["--form", "baskets", "--weight"],
            Form::Single | Form::Pairs => &["--form", "single"],
        }
    }

    pub fn name(self) -> &'static str {
        match self {
            Form::Fimi => "fimi",
            Form::Counts => "counts",
            Form::Baskets => "baskets",
            Form::WeightedBaskets => "weighted baskets",
            Form::Single => "single",
            Form::Pairs => "pairs",
        }
    }
}

/// How a file is read as baskets, and why. Each sentence is a line.
#[derive(Drop)]
pub struct Reading {
    pub form: Form,
    /// What makes pairs of it, also where it is mined as it is.
    pub recipe: Recipe,
    /// What decided.
    pub because: Said,
    /// What speaks against it. If there is nothing, it is sure.
    pub doubts: Said,
    /// What is left out, and the like.
    pub notes: Said,
}

impl Reading {
    /// That of a table whose columns are not read yet.
    pub fn of_table(table: &Table<'_>, encoding: Encoding) -> Result<Self, AllocError> {
        let alloc = table.alloc;
        let mut recipe = Recipe::new(alloc, encoding, table.fields.copy(alloc)?);
        recipe.skip = table.skip as u64;
        recipe.skip_last = table.totals as u64;
        recipe.has_header = table.header.is_some();
        Ok(Reading::new(alloc, recipe))
    }

    pub fn new(alloc: Global, recipe: Recipe) -> Self {
        Reading {
            form: Form::Pairs,
            recipe,
            because: Said::new(alloc),
            doubts: Said::new(alloc),
            notes: Said::new(alloc),
        }
    }
}
