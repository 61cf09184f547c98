//! Pairs as a text of CSV.
use crate::encoding::{Encoding, utf8_text};
use crate::fault::PairsFault;
use crate::pairs::{TakesPairs, pairs_of};
use crate::recipe::Recipe;
use csv::{Writer, WriterBuilder};
use std::alloc::Global;
use std::io::Write;

/// Writes the pairs of a file: a record of CSV for each, the id of a basket and an item of it.
pub fn write_pairs<W: Write + Drop>(
    alloc: Global,
    bytes: &[u8],
    recipe: &Recipe,
    output: W,
) -> Result<(), PairsFault> {
    let mut writer = PairWriter {
        writer: WriterBuilder::new().from_writer(output),
    };
    match recipe.encoding {
        Encoding::Utf8 => pairs_of(alloc, utf8_text(bytes)?, recipe, &mut writer)?,
        encoding => {
            let text = encoding.decode(alloc, bytes)?;
            pairs_of(alloc, text.as_str(), recipe, &mut writer)?;
        }
    }
    writer.writer.flush()?;
    Ok(())
}

#[derive(Drop)]
struct PairWriter<W: Write + Drop> {
    writer: Writer<W>,
}

impl<W: Write + Drop> TakesPairs for PairWriter<W> {
    fn take(&mut self, basket: &str, item: &str) -> Result<(), PairsFault> {
        self.writer.write_field(basket.as_bytes())?;
        self.writer.write_field(item.as_bytes())?;
        self.writer.end_record()?;
        Ok(())
    }
}
