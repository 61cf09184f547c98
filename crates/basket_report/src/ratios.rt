//! The texts of fractions that were written recently.
ghost use Rattle.std.specs.Prelude.{◌≡◌, ◌≤◌, ◌++◌, take, OnOk};
ghost use Rattle.basket_core.specs.Fraction.{lowest};
ghost use Rattle.basket_report.specs.Texts.{ratio_text};
ghost use Rattle.basket_rules.specs.Confident.{confidence_of, lift_of};

use crate::texts::{put_fraction, put_front};
use basket_core::Fraction;
use basket_order::word_hash;
use basket_rules::RuleCounts;
use itoa::write_digits;
use std::alloc::{AllocError, Global};

/// How many texts are kept.
const SLOTS: usize = 2_048;

/// How long the text of a fraction of two numbers in 64 bits is at most.
const ROOM: usize = 41;

/// Where a text is made: at the end of a room, and a room more after its start.
const SCRATCH: usize = 2 * ROOM;

/// A numerator and a denominator, and the text of their fraction in lowest terms, at the beginning
/// of a room.
#[derive(Clone, Copy)]
struct Written {
    numerator: u64,
    denominator: u64,
    length: u8,
    bytes: [u8; ROOM],
    ghost within: { length ≤ 41 },
    ghost is: { take length bytes ≡ ratio_text (lowest numerator denominator) },
}

impl Written {
    fn new(numerator: u64, denominator: u64) -> Self
        requires { 1 ≤ denominator }
        ensures numerator { result.numerator ≡ numerator }
        ensures denominator { result.denominator ≡ denominator }
    {
        let fraction = Fraction::reduced(u128::from(numerator), u128::from(denominator));
        let mut scratch = [0; SCRATCH];
        let slash = write_digits(fraction.denominator() as u64, &mut scratch, ROOM) - 1;
        scratch[slash] = b'/';
        let start = write_digits(fraction.numerator() as u64, &mut scratch, slash);
        let mut bytes = [0; ROOM];
        bytes.copy_from_slice(&scratch[start..start + ROOM]);
        Written {
            numerator,
            denominator,
            length: (ROOM - start) as u8,
            bytes,
        }
    }

    /// Adds the text.
    #[inline(always)]
    fn put(&self, report: &mut Vec<u8>) -> Result<(), AllocError>
        ensures { OnOk result (report.new.items ≡ report.old.items ++ ratio_text (lowest self.now.numerator self.now.denominator)) }
    {
        put_front(report, &self.bytes, usize::from(self.length))
    }
}

/// Texts of fractions. The hash of the two numbers is a slot, which has the text of the fraction that
/// was written there last.
#[derive(Drop)]
pub struct Ratios {
    slots: Vec<Written>,
}

impl Ratios {
    /// Nothing is kept, and nothing is allocated.
    pub fn none(alloc: Global) -> Self {
        Ratios {
            slots: Vec::new(alloc),
        }
    }

    /// Nothing is kept yet.
    pub fn new(alloc: Global) -> Result<Self, AllocError> {
        Ok(Ratios {
            slots: vec![in alloc; Written::new(0, 1); SLOTS]?,
        })
    }

    /// Adds the confidence of a rule.
    pub fn put_confidence(
        &mut self,
        report: &mut Vec<u8>,
        counts: &RuleCounts,
    ) -> Result<(), AllocError>
        ensures { OnOk result (report.new.items ≡ report.old.items ++ ratio_text (confidence_of counts.now)) }
    {
        self.put_short(report, counts.count, counts.antecedent_count)
    }

    /// Adds the lift of a rule.
    pub fn put_lift(&mut self, report: &mut Vec<u8>, counts: &RuleCounts) -> Result<(), AllocError>
        ensures { OnOk result (report.new.items ≡ report.old.items ++ ratio_text (lift_of counts.now)) }
    {
        self.put(
            report,
            u128::from(counts.count) * u128::from(counts.total),
            u128::from(counts.antecedent_count) * u128::from(counts.consequent_count),
        )
    }

    fn put(
        &mut self,
        report: &mut Vec<u8>,
        numerator: u128,
        denominator: u128,
    ) -> Result<(), AllocError>
        requires { 1 ≤ denominator }
        ensures { OnOk result (report.new.items ≡ report.old.items ++ ratio_text (lowest numerator denominator)) }
    {
        match (u64::try_from(numerator), u64::try_from(denominator)) {
            (Ok(numerator), Ok(denominator)) => self.put_short(report, numerator, denominator),
            _ => put_fraction(report, &Fraction::reduced(numerator, denominator)),
        }
    }

    fn put_short(
        &mut self,
        report: &mut Vec<u8>,
        numerator: u64,
        denominator: u64,
    ) -> Result<(), AllocError>
        requires { 1 ≤ denominator }
        ensures { OnOk result (report.new.items ≡ report.old.items ++ ratio_text (lowest numerator denominator)) }
    {
        match self.slots.get_mut(slot_of(numerator, denominator)) {
            Some(slot) => {
                if slot.numerator != numerator || slot.denominator != denominator {
                    *slot = Written::new(numerator, denominator);
                }
                slot.put(report)
            }
            None => Written::new(numerator, denominator).put(report),
        }
    }
}

fn slot_of(numerator: u64, denominator: u64) -> usize {
    word_hash(numerator, denominator) as usize % SLOTS
}
