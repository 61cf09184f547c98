use basket_names::Names;

/// How a report writes items.
#[derive(Clone, Copy)]
pub enum Style<'a> {
    /// By their numbers, a line for each set or rule.
    Numbers,
    /// By their names, a CSV record for each set or rule, with this separator.
    Names { names: &'a Names, separator: u8 },
}
