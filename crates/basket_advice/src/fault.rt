//! Advice on the fault of an input.
use crate::place::Place;
use basket_plan::{Form, Layout};
use basket_read::ReadFault;
use std::alloc::{AllocError, Global};

/// Advice on a fault of an input that is not about reading its bytes.
pub fn input_advice(
    alloc: Global,
    fault: ReadFault,
    place: Place<'_>,
) -> Result<String, AllocError> {
    let name = place.name();
    match fault {
        ReadFault::Byte { byte, .. } => byte_advice(alloc, byte, place),
        _ => {
            match (remedy(fault), header_remedy(fault, place.layout)) {
                ("", "") => Ok(String::new(alloc)),
                (remedy, header) => format!(in alloc; "in {name}{remedy}{header}"),
            }
        }
    }
}

/// What to do about an input that is too long.
pub const IN_PARTS: &str =
    "; cut it (`split -n l/8 FILE part.` does for lines), count the parts and add up (`man basket`, PARTS)";

/// What to do about a fault.
fn remedy(fault: ReadFault) -> &'static str {
    match fault {
        // Which encoding it is, or whether it is compressed, this fault doesn't say.
        ReadFault::NotText { .. } => {
            "; it has to be UTF-8: `basket look` says what it is, and how to change it"
        }
        ReadFault::TooLong => IN_PARTS,
        ReadFault::ShortRecord { .. } => {
            "; --form single takes a basket's id and an item's name in each record, \
--form baskets a whole basket; see --sep too"
        }
        ReadFault::Weight { .. } => "; --weight takes a number first in each record",
        ReadFault::RecordCount { .. } => "; each record has a count first, then names",
        ReadFault::NoCount { .. } => {
            "; --form counts takes sets with counts, as 1 2 (7); baskets are --form fimi"
        }
        ReadFault::NoTotal => {
            "; `count` writes that line first; a --min that is a count needs none"
        }
        ReadFault::Subset { .. } => {
            "; each set needs its subsets of one item less, with counts that are no lower"
        }
        _ => "",
    }
}

/// What to do about a first record that may be a header.
fn header_remedy(fault: ReadFault, layout: Layout) -> &'static str {
    match fault {
        ReadFault::Weight { nth: 1 } | ReadFault::RecordCount { nth: 1 } if !layout.header => {
            "; if this record is a header, add --header"
        }
        _ => "",
    }
}

/// Advice on a byte that is not of the form.
fn byte_advice(alloc: Global, byte: u8, place: Place<'_>) -> Result<String, AllocError> {
    let name = place.name();
    if let Some(kind) = kind_by_mark(byte) {
        return format!(in alloc; "{name} is no plain text: {kind}");
    }
    let names = names_remedy(byte, place.layout.form);
    if byte.is_ascii_graphic() {
        let letter = char::from(byte);
        format!(in alloc; "{name} has `{letter}` there{names}")
    } else {
        format!(in alloc; "{name} is no text of numbers{names}")
    }
}

/// What a file is that has a byte first which no text of UTF-8 has.
fn kind_by_mark(byte: u8) -> Option<&'static str> {
    match byte {
        0x1F => Some("compressed? try `zcat FILE | basket ..`"),
        0xFE | 0xFF => Some("UTF-16? try `iconv -f UTF-16 -t UTF-8 FILE | basket ..`"),
        _ => None,
    }
}

/// The forms that take names, if a byte may be of a name or between names.
fn names_remedy(byte: u8, form: Form) -> &'static str {
    let is_of_names = !byte.is_ascii() || byte.is_ascii_alphabetic() || b",;|\"".contains(&byte);
    match form {
        _ if !is_of_names => "",
        Form::Counts => "; names? try --form csv-counts",
        _ => "; names? try --form baskets or --form single",
    }
}
