//! The rules by which a table is read as baskets, in the order in which they are asked. A rule has a
//! name, a test with a sentence of what decided it in a file of its own, and the file that needs it.
use crate::reading::Reading;
use crate::table::Table;
use crate::{cells, lists, matrix, single};
use basket_pairs::Encoding;
use std::alloc::AllocError;

#[derive(Clone, Copy)]
pub enum Rule {
    /// A pivot table of Excel, `get_dummies` of pandas: `receipt;bread;milk`, then `1001;1;`.
    Matrix,
    /// A web shop's orders, `groupby(..).agg(list)` of pandas: `1001,"['bread', 'milk']"`.
    Cells,
    /// Baskets as they are, padded or not: `bread,milk`, or `3,bread,milk,jam`.
    Lists,
    /// A till's lines: `2026-11-02;1001;bread;2;0,99`.
    Single,
}

static RULES: [Rule; 4] = [Rule::Matrix, Rule::Cells, Rule::Lists, Rule::Single];

impl Rule {
    pub fn name(self) -> &'static str {
        match self {
            Rule::Matrix => "matrix",
            Rule::Cells => "cells",
            Rule::Lists => "baskets",
            Rule::Single => "single",
        }
    }

    /// Puts into a reading what the rule sees. Returns false if the rule doesn't apply.
    fn read(self, table: &Table<'_>, reading: &mut Reading) -> Result<bool, AllocError> {
        match self {
            Rule::Matrix => matrix::read(table, reading),
            Rule::Cells => cells::read(table, reading),
            Rule::Lists => lists::read(table, reading),
            Rule::Single => single::read(table, reading),
        }
    }
}

/// Reads a table by the first rule that applies, if one does.
pub fn read_by_rules(
    table: &Table<'_>,
    encoding: Encoding,
) -> Result<Option<(Rule, Reading)>, AllocError> {
    for rule in RULES {
        let mut reading = Reading::of_table(table, encoding)?;
        if rule.read(table, &mut reading)? {
            return Ok(Some((rule, reading)));
        }
    }
    Ok(None)
}
