//! Tables with an item in each record.
use crate::codes::determines;
use crate::column::Column;
use crate::parts::{add_parts, note_others};
use crate::reading::{Form, Reading};
use crate::scores::{best_basket, best_item, is_named_basket};
use crate::table::Table;
use crate::titles::cell;
use crate::value::Word;
use basket_pairs::{Key, Span};
use std::alloc::AllocError;

/// The columns of the basket and of the item.
type Choice<'t, 'a> = (&'t Column<'a>, &'t Column<'a>);

/// Reads a table with an item of a basket in each record.
pub fn read(table: &Table<'_>, reading: &mut Reading) -> Result<bool, AllocError> {
    let Some((basket, item)) = choice(table)? else {
        return Ok(false);
    };
    reading.form = Form::Single;
    reading.recipe.items.push(Span::one(item.number))?;
    reading.recipe.basket.push(Key {
        column: basket.number,
        is_day: false,
    })?;
    say_choice(basket, item, reading);
    add_parts(table, basket, item, reading)?;
    take_blanks(table, basket, item, reading);
    note_others(table, basket, reading);
    Ok(true)
}

/// Chooses a basket for the best item, and another item if each basket has one of it alone.
fn choice<'t, 'a>(table: &'t Table<'a>) -> Result<Option<Choice<'t, 'a>>, AllocError> {
    let Some(item) = best_item(table, None)? else {
        return Ok(None);
    };
    let Some(basket) = best_basket(table, item)? else {
        return Ok(None);
    };
    if determines(table.alloc, &basket.codes, &item.codes)?
        && let Some(other) = best_item(table, Some(basket))?
        && let Some(basket) = best_basket(table, other)?
    {
        return Ok(Some((basket, other)));
    }
    Ok(Some((basket, item)))
}

/// Has a blank id stand for the one above, unless it is that of subtotals.
fn take_blanks(table: &Table<'_>, basket: &Column<'_>, item: &Column<'_>, reading: &mut Reading) {
    let blanks = basket.counts.blanks;
    if blanks <= basket.len() / 10 {
        return;
    }
    let mut totals: usize = 0;
    for record in table.body {
        let is_blank = cell(record, basket.number.saturating_sub(1)).is_empty();
        if is_blank && Word::Total.is_in(cell(record, item.number.saturating_sub(1))) {
            totals = totals.saturating_add(1);
        }
    }
    let begins_blank = match table.body.first() {
        Some(first) => cell(first, basket.number.saturating_sub(1)).is_empty(),
        None => false,
    };
    if begins_blank {
        write!(
            reading.doubts,
            "Column {} is blank in {blanks} records, which are left out.\n",
            basket.number
        );
        return;
    }
    if totals > blanks / 2 {
        reading.notes.push_str(
            "Records without a basket are totals, it seems, and are left out.\n",
        );
        return;
    }
    reading.recipe.fills = true;
    let (number, len) = (basket.number, basket.len());
    let said = if blanks > len / 5 * 4 {
        &mut reading.doubts
    } else {
        &mut reading.notes
    };
    write!(
        said,
        "Column {number} is blank in {blanks} of {len} records, which are taken to be of the basket above.\n"
    );
}

/// Says why these two columns were taken, and which others might be.
fn say_choice(basket: &Column<'_>, item: &Column<'_>, reading: &mut Reading) {
    let (basket_number, item_number) = (basket.number, item.number);
    let (because, doubts) = (&mut reading.because, &mut reading.doubts);
    let is_customer = Word::Customer.is_in(basket.header) && !is_named_basket(basket.header);
    write!(
        because,
        "An item of a basket in each record: column {basket_number} is the basket"
    );
    if is_named_basket(basket.header) {
        because.push_str(", by its name");
    } else if basket.has_neighbours() {
        because.push_str(", since records with one id stand together");
    } else if !is_customer {
        write!(
            doubts,
            "Nothing but its repeats says that column {basket_number} is the basket.\n"
        );
    }
    write!(because, "; column {item_number} is the item");
    if Word::Item.is_in(item.header) {
        because.push_str(", by its name.\n");
    } else {
        because.push_str(", since its values come again in other baskets.\n");
        if item.is_unique() {
            write!(
                doubts,
                "Nearly no value of column {item_number} comes twice.\n"
            );
        }
        if item.is_of_numbers() {
            write!(
                doubts,
                "Column {item_number} has numbers, which may be no items.\n"
            );
        }
    }
    if is_customer {
        write!(
            doubts,
            "Column {basket_number} is a customer, it seems, and no column a receipt.\n"
        );
    }
    if basket.is_unique() {
        doubts.push_str("Nearly each basket has one item alone.\n");
    }
    if basket.is_of_days() && !basket.has_times() {
        doubts.push_str("Without an id of receipts, what was sold at one time is one basket.\n");
    }
}
