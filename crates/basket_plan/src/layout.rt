ghost use Rattle.std.specs.Prelude.{◌≡◌, false};
ghost use Rattle.basket_plan.specs.Plan.{has_names};

/// How an input is written.
#[derive(Clone, Copy, Debug, PartialEq, Eq)]
pub enum Form {
    /// Lines of the numbers of items, a basket each.
    Fimi,
    /// CSV records of the names of items, a basket each.
    Baskets,
    /// CSV records of the id of a basket and the name of an item in it.
    Single,
    /// Lines of sets of numbers with their counts, as `count` and `sets` write them.
    Counts,
    /// CSV records of a count and the names of a set, as `count` and `sets` write them.
    CsvCounts,
}

impl Form {
    /// Whether items have names, as in CSV.
    pub fn has_names(self) -> bool
        ensures { result ≡ has_names self }
    {
        matches!(self, Form::Baskets | Form::Single | Form::CsvCounts)
    }
}

/// A form of an input, and for CSV how its records are written.
#[derive(Clone, Copy, Debug, PartialEq, Eq)]
pub struct Layout {
    pub form: Form,
    /// The byte between fields, in the input and in the report: a comma, a semicolon, a tab or a bar.
    pub separator: u8,
    /// Whether the first record of the input is left out.
    pub header: bool,
    /// Whether the first field of a basket is its weight. It doesn't count for the other forms.
    pub weighted: bool,
}

impl Layout {
    /// A form with the defaults of the command line: for CSV commas, no header and no weights.
    pub fn of(form: Form) -> Self
        ensures { result ≡ record { form = form; separator = 44; header = false; weighted = false } }
    {
        Layout {
            form,
            separator: b',',
            header: false,
            weighted: false,
        }
    }
}
