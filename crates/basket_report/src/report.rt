//! A report that is being written.
ghost use Rattle.std.specs.Prelude.{◌≡◌, ◌<◌, ◌++◌, [], ℕ, List, IfOk, OnOk, length};
ghost use Rattle.basket_rules.specs.Confident.{rule_from, rules_in};
ghost use Rattle.basket_report.specs.Report.{HasSoFar, rule_text, rules_report_of, set_of, set_text};
ghost use Rattle.basket_report.specs.Style.{Wording, wording_of};

use crate::lines::Lines;
use crate::style::Style;
use crate::table::Table;
use crate::texts::Texts;
use basket_core::Frequent;
use basket_rules::{ConfidentRule, RuleCounts, SetIndex, Sides};
use std::alloc::{AllocError, Global};

/// A report so far. If something can't be added to it, all of it is lost.
#[derive(Drop)]
pub enum Report<'a> {
    Lines(Lines<'a>),
    Table(Table<'a>),
}

impl<'a> Report<'a> {
    /// An empty report.
    pub fn new(alloc: Global, style: Style<'a>, texts: &'a Texts) -> Self
        ensures { HasSoFar result (wording_of style.entry) [] }
    {
        match style {
            Style::Numbers => Report::Lines(Lines::new(alloc, texts)),
            Style::Names { names, separator } => Report::Table(Table::new(alloc, names, separator)),
        }
    }

    /// An empty report, for rules.
    pub fn for_rules(alloc: Global, style: Style<'a>, texts: &'a Texts) -> Result<Self, AllocError>
        ensures { IfOk result (λ report. HasSoFar report (wording_of style.entry) []) }
    {
        match style {
            Style::Numbers => Ok(Report::Lines(Lines::for_rules(alloc, texts)?)),
            Style::Names { names, separator } => Ok(Report::Table(Table::for_rules(
                alloc, names, separator,
            )?)),
        }
    }

    /// Adds a set with its count.
    pub fn put_set(&mut self, items: &[u32], count: u64) -> Result<(), AllocError>
        ensures { (wording : Wording) (text : List ℕ) → HasSoFar self.old wording text
            → OnOk result (HasSoFar self.new wording (text ++ set_text wording (set_of items.now count))) }
    {
        match self {
            Report::Lines(lines) => lines.put_set(items, count),
            Report::Table(table) => table.put_set(items, count),
        }
    }

    /// Adds a rule.
    pub fn put_rule(&mut self, sides: &Sides, counts: &RuleCounts) -> Result<(), AllocError>
        ensures { (wording : Wording) (text : List ℕ) → HasSoFar self.old wording text
            → OnOk result (HasSoFar self.new wording (text ++ rule_text wording (rule_from sides.now counts.now))) }
    {
        match self {
            Report::Lines(lines) => lines.put_rule(sides, counts),
            Report::Table(table) => table.put_rule(sides, counts),
        }
    }

    /// Adds the rules with the set at the index as their union.
    #[tactic(auto, using(std::proofs::lemmas::Grind::common_steps))]
    pub fn put_rules(
        &mut self,
        frequent: &Frequent,
        number: usize,
        met: &[ConfidentRule],
        set_index: &mut SetIndex<'_>,
    ) -> Result<(), AllocError>
        requires { number < length frequent.now.sets }
        ensures { (wording : Wording) (text : List ℕ) → HasSoFar self.old wording text
            → OnOk result (HasSoFar self.new wording (text ++ rules_report_of wording (rules_in frequent.now number met.now))) }
    {
        for rule in met {
            let counts = set_index.rule(frequent, number, rule)?;
            self.put_rule(&set_index.sides, &counts)?;
        }
        Ok(())
    }

    /// The text of the report.
    pub fn into_text(self) -> Result<Vec<u8>, AllocError>
        ensures { (wording : Wording) (text : List ℕ) → HasSoFar self.entry wording text → IfOk result (λ written. written.items ≡ text) }
    {
        match self {
            Report::Lines(lines) => Ok(lines.into_text()),
            Report::Table(table) => table.into_text(),
        }
    }
}
