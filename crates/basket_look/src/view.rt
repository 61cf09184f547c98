//! All that was recognised of a file.
use crate::file::File;
use crate::lines::LineEnds;
use crate::reading::Reading;
use crate::sample::Sample;
use crate::table::Table;
use basket_pairs::Encoding;

/// All that was recognised of a file.
#[derive(Drop)]
pub struct View<'f, 't> {
    pub file: File<'f>,
    pub encoding: Encoding,
    pub ends: LineEnds,
    /// A word for programs: the rule that applies, `fimi` or `counts`.
    pub kind: &'static str,
    /// How many records or lines were read.
    pub records: usize,
    /// None for lines of numbers.
    pub table: Option<Table<'t>>,
    /// How it is read, the most likely way first.
    pub readings: Vec<Reading>,
    /// The baskets of the first of these.
    pub sample: Sample,
}

/// What a column is in the first reading.
#[derive(Clone, Copy, PartialEq, Eq)]
pub enum Role {
    Basket,
    Item,
    /// A mark for an item.
    Mark,
    Nothing,
}

impl Role {
    pub fn name(self) -> &'static str {
        match self {
            Role::Basket => "basket",
            Role::Item => "item",
            Role::Mark => "mark",
            Role::Nothing => "",
        }
    }
}

impl View<'_, '_> {
    /// The word for what separates fields, if there is one.
    pub fn separator(&self) -> Option<&'static str> {
        match &self.table {
            Some(table) => table.fields.word(),
            None => Some("space"),
        }
    }

    /// What a column, counted from 1, is in the first reading.
    pub fn role(&self, column: usize) -> Role {
        let Some(reading) = self.readings.first() else {
            return Role::Nothing;
        };
        for key in &reading.recipe.basket {
            if key.column == column {
                return Role::Basket;
            }
        }
        for span in &reading.recipe.items {
            if span.first <= column && span.last.is_none_or(|last| column <= last) {
                return if reading.recipe.are_marks {
                    Role::Mark
                } else {
                    Role::Item
                };
            }
        }
        Role::Nothing
    }
}
