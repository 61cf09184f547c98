//! The texts of numbers.
ghost use Rattle.std.specs.Prelude.{◌≡◌, ◌≤◌, ◌++◌, [], ◌∷◌, decimal, length, take, IfOk, IfSome, OnErr, OnOk};
ghost use Rattle.basket_report.specs.Texts.{AreTexts, ratio_text};

use crate::item_text::ItemText;
use basket_core::Fraction;
use itoa::Buffer;
use std::alloc::{AllocError, Global};
use std::marker::Model;

/// The text of each item below a bound, made once for many lines.
#[derive(Drop)]
pub struct Texts {
    texts: Vec<ItemText>,
}

impl Model for Texts {
    ghost use Rattle.std.specs.Prelude.{ℕ, length};
    ghost use Rattle.basket_report.specs.Texts.{AreTexts};

    ghost Value = { ℕ };

    ghost view = { λ t. length t.texts.items };

    ghost invariant = { λ t. AreTexts t.texts.items };
}

impl Texts {
    /// The texts of the items below the bound.
    pub fn below(alloc: Global, bound: u32) -> Result<Self, AllocError>
        ensures { IfOk result (λ texts. texts ≡ bound) }
    {
        let mut texts = Vec::with_capacity(alloc, bound as usize)?;
        for item in 0..bound {
            texts.push(ItemText::new(item))?;
        }
        Ok(Texts { texts })
    }

    /// The texts, each at the index of its item.
    pub fn all(&self) -> &[ItemText]
        ensures { AreTexts result.now }
    {
        &self.texts
    }

    /// The text of an item, if it is made already.
    pub fn get(&self, item: u32) -> Option<&ItemText>
        ensures { IfSome result (λ text. text.now.item ≡ item) }
    {
        self.texts.get(item as usize)
    }

    /// Adds an item and a space.
    pub fn put(&self, report: &mut Vec<u8>, item: u32) -> Result<(), AllocError>
        ensures { OnOk result (report.new.items ≡ report.old.items ++ (decimal item ++ 32 ∷ [])) }
    {
        match self.get(item) {
            Some(text) => put_front(report, &text.bytes, text.length),
            None => {
                let text = ItemText::new(item);
                put_front(report, &text.bytes, text.length)
            }
        }
    }
}

/// Adds the first bytes of a room. The whole room is copied, which is no call if its size is known,
/// and what is too much is cut off.
#[inline(always)]
pub fn put_front(report: &mut Vec<u8>, room: &[u8], count: usize) -> Result<(), AllocError>
    requires { count ≤ length room.now }
    ensures ok { OnOk result (report.new.items ≡ report.old.items ++ take count room.now) }
    ensures err { OnErr result (report.new.items ≡ report.old.items) }
{
    report.extend_from_slice(room)?;
    report.truncate(report.len() - (room.len() - count));
    Ok(())
}

/// Adds the number.
pub fn put_number(report: &mut Vec<u8>, number: u64) -> Result<(), AllocError>
    ensures { OnOk result (report.new.items ≡ report.old.items ++ decimal number) }
{
    let mut buffer = Buffer::new();
    report.extend_from_slice(buffer.format(number).as_bytes())
}

/// Adds the numerator, a slash and the denominator.
pub fn put_fraction(report: &mut Vec<u8>, fraction: &Fraction) -> Result<(), AllocError>
    ensures { OnOk result (report.new.items ≡ report.old.items ++ ratio_text fraction.now) }
{
    put_large(report, fraction.numerator())?;
    report.push(b'/')?;
    put_large(report, fraction.denominator())
}

fn put_large(report: &mut Vec<u8>, number: u128) -> Result<(), AllocError>
    ensures { OnOk result (report.new.items ≡ report.old.items ++ decimal number) }
{
    let mut buffer = Buffer::new();
    report.extend_from_slice(buffer.format(number).as_bytes())
}
