//! Which column would do best as the basket, and which as the item.
use crate::codes::determines;
use crate::column::Column;
use crate::table::Table;
use crate::value::Word;
use std::alloc::AllocError;

/// A column with so few points does not do.
const TOO_FEW: i32 = -9;

/// No basket has so few ids as these, if there are more than a few records.
const FEW_IDS: usize = 3;

/// The points of what holds.
fn sum_of(points: &[(bool, i32)]) -> i32 {
    let mut sum: i32 = 0;
    for (holds, count) in points {
        if *holds {
            sum = sum.saturating_add(*count);
        }
    }
    sum
}

fn item_score(column: &Column<'_>) -> i32 {
    let header = column.header;
    let is_item = Word::Item.is_in(header);
    let is_quantity = Word::Quantity.is_in(header) || Word::Other.is_in(header);
    sum_of(&[
        (column.is_blank() || column.different() < 2, -20),
        (column.is_of_measures(), if is_item { -4 } else { -20 }),
        (is_item, 6),
        (Word::Name.is_in(header), 2),
        (is_quantity || Word::Place.is_in(header), -6),
        (Word::Basket.is_in(header), -6),
        (Word::Customer.is_in(header), -6),
        (Word::Time.is_in(header), -6),
        (!column.is_of_numbers(), 3),
        (column.has_neighbours(), -3),
        (column.is_unique(), -8),
    ])
}

/// Whether a header names a basket, and nothing else of it.
pub fn is_named_basket(header: &str) -> bool {
    let is_other = Word::Other.is_in(header) || Word::Quantity.is_in(header);
    Word::Basket.is_in(header) && !is_other && !Word::Time.is_in(header)
}

fn basket_score(column: &Column<'_>) -> i32 {
    let header = column.header;
    let (is_named, is_item) = (is_named_basket(header), Word::Item.is_in(header));
    let is_other = Word::Other.is_in(header) || Word::Quantity.is_in(header);
    let is_few = column.different() <= FEW_IDS && column.len() > 30;
    let (is_day, is_unique) = (column.is_of_days(), column.is_unique());
    sum_of(&[
        (column.different() < 2 || column.is_blank() || is_few, -30),
        (is_named, if is_item { 2 } else { 8 }),
        (!is_named && Word::Customer.is_in(header), 4),
        (!is_named && (is_other || Word::Place.is_in(header)), -20),
        (!is_named && is_item, -4),
        (column.has_neighbours(), 3),
        (column.is_of_numbers(), 1),
        (is_day, if column.has_times() { -3 } else { -6 }),
        (!is_named && !is_day && column.is_of_measures(), -20),
        (is_unique, if is_named { -4 } else { -20 }),
    ])
}

/// The column that would do best as items beside a basket, if that is known: none that the basket
/// determines. Of those that do equally well it is the finest, since each name has one group.
pub fn best_item<'t, 'a>(
    table: &'t Table<'a>,
    basket: Option<&Column<'a>>,
) -> Result<Option<&'t Column<'a>>, AllocError> {
    let mut scores = Vec::new(table.alloc);
    for column in &table.columns {
        let is_lost = match basket {
            Some(basket) => {
                basket.number == column.number
                    || determines(table.alloc, &basket.codes, &column.codes)?
            }
            None => false,
        };
        scores.push(if is_lost { -100 } else { item_score(column) })?;
    }
    best(table, &scores)
}

/// The column that would do best as the ids of baskets beside an item. Of those that do equally well
/// it is the finest, since each receipt has one customer.
pub fn best_basket<'t, 'a>(
    table: &'t Table<'a>,
    item: &Column<'a>,
) -> Result<Option<&'t Column<'a>>, AllocError> {
    let mut scores = Vec::new(table.alloc);
    for column in &table.columns {
        // What only says more of the item, as its price and its group do.
        let is_of_item = !is_named_basket(column.header)
            && determines(table.alloc, &item.codes, &column.codes)?;
        let is_lost = column.number == item.number || is_of_item;
        scores.push(if is_lost { -100 } else { basket_score(column) })?;
    }
    best(table, &scores)
}

/// The column with the most points, or one that is finer and has hardly fewer.
fn best<'t, 'a>(
    table: &'t Table<'a>,
    scores: &[i32],
) -> Result<Option<&'t Column<'a>>, AllocError> {
    let mut best: Option<(&Column<'a>, i32)> = None;
    for (column, score) in table.columns.iter().zip(scores) {
        let is_better = match best {
            None => *score > TOO_FEW,
            Some((other, most)) => {
                *score > most.saturating_add(1)
                    || *score >= most.saturating_sub(1) && is_finer(table, column, other)?
            }
        };
        if is_better {
            best = Some((column, *score));
        }
    }
    Ok(best.map(|(column, _)| column))
}

/// Whether a column determines another that does not determine it, or has far more values than one
/// that has but a few.
fn is_finer(table: &Table<'_>, one: &Column<'_>, other: &Column<'_>) -> Result<bool, AllocError> {
    if one.different() <= other.different() {
        return Ok(false);
    }
    let is_far_finer = other.different() < 12 && one.different() / 3 > other.different();
    Ok(is_far_finer || determines(table.alloc, &one.codes, &other.codes)?)
}
