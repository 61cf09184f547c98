//! Lines of numbers.
ghost use Rattle.std.specs.Prelude.{◌≡◌, ◌++◌, [], ◌∷◌, IfOk, OnOk};
ghost use Rattle.basket_report.specs.Lines.{count_text, items_text, ratios_text, rule_line, set_line, sides_text};
ghost use Rattle.basket_report.specs.Report.{set_of};
ghost use Rattle.basket_rules.specs.Confident.{confidence_of, lift_of, rule_from};

use crate::count_text::CountText;
use crate::ratios::Ratios;
use crate::texts::{Texts, put_front};
use basket_rules::{RuleCounts, Sides};
use std::alloc::{AllocError, Global};
use std::marker::Model;

/// Lines so far. If one can't be added, all are lost.
#[derive(Drop)]
pub struct Lines<'a> {
    texts: &'a Texts,
    /// The count of the last set or rule.
    count: CountText,
    ratios: Ratios,
    text: Vec<u8>,
}

impl<'a> Model for Lines<'a> {
    ghost use Rattle.std.specs.Prelude.{ℕ, List};

    ghost Value = { List ℕ };

    ghost view = { λ lines. lines.text.items };
}

impl<'a> Lines<'a> {
    /// No lines.
    pub fn new(alloc: Global, texts: &'a Texts) -> Self
        ensures { result ≡ [] }
    {
        Lines {
            texts,
            count: CountText::new(0),
            ratios: Ratios::none(alloc),
            text: Vec::new(alloc),
        }
    }

    /// No lines, for those of rules.
    pub fn for_rules(alloc: Global, texts: &'a Texts) -> Result<Self, AllocError>
        ensures { IfOk result (λ lines. lines ≡ []) }
    {
        let mut lines = Lines::new(alloc, texts);
        lines.ratios = Ratios::new(alloc)?;
        Ok(lines)
    }

    /// Adds the line of a set with its count.
    pub fn put_set(&mut self, items: &[u32], count: u64) -> Result<(), AllocError>
        ensures { OnOk result (self.new ≡ self.old ++ set_line (set_of items.now count)) }
    {
        self.count.set(count);
        put_items(&mut self.text, self.texts, items)?;
        put_count(&mut self.text, &self.count)?;
        self.text.push(b'\n')?;
        Ok(())
    }

    /// Adds the line of a rule. All rules of one union have the same count.
    pub fn put_rule(&mut self, sides: &Sides, counts: &RuleCounts) -> Result<(), AllocError>
        ensures { OnOk result (self.new ≡ self.old ++ rule_line (rule_from sides.now counts.now)) }
    {
        self.count.set(counts.count);
        put_sides(&mut self.text, self.texts, sides)?;
        put_count(&mut self.text, &self.count)?;
        put_ratios(&mut self.text, &mut self.ratios, counts)
    }

    /// The text of all lines.
    pub fn into_text(self) -> Vec<u8>
        ensures { result.items ≡ self.entry }
    {
        let Lines { text, .. } = self;
        text
    }
}

/// Adds the items, each followed by a space.
fn put_items(report: &mut Vec<u8>, texts: &Texts, items: &[u32]) -> Result<(), AllocError>
    ensures { OnOk result (report.new.items ≡ report.old.items ++ items_text items.now) }
{
    for item in items {
        texts.put(report, *item)?;
    }
    Ok(())
}

/// Adds both sides with an arrow between.
fn put_sides(report: &mut Vec<u8>, texts: &Texts, sides: &Sides) -> Result<(), AllocError>
    ensures { OnOk result (report.new.items ≡ report.old.items ++ sides_text sides.now.antecedent.items sides.now.consequent.items) }
{
    put_items(report, texts, &sides.antecedent)?;
    report.extend_from_slice(b"=> ")?;
    put_items(report, texts, &sides.consequent)
}

/// Adds a count in parentheses.
fn put_count(report: &mut Vec<u8>, text: &CountText) -> Result<(), AllocError>
    ensures { OnOk result (report.new.items ≡ report.old.items ++ count_text text.now.count) }
{
    put_front(report, &text.bytes, text.length)
}

/// Adds a space, the confidence, a space, the lift and a line feed.
fn put_ratios(
    report: &mut Vec<u8>,
    ratios: &mut Ratios,
    counts: &RuleCounts,
) -> Result<(), AllocError>
    ensures { OnOk result (report.new.items ≡ report.old.items ++ (32 ∷ ratios_text (confidence_of counts.now) (lift_of counts.now) ++ 10 ∷ [])) }
{
    report.push(b' ')?;
    ratios.put_confidence(report, counts)?;
    report.push(b' ')?;
    ratios.put_lift(report, counts)?;
    report.push(b'\n')?;
    Ok(())
}
