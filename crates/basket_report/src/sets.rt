//! The report of sets.
ghost use Rattle.std.specs.Prelude.{◌≡◌, IfOk};
ghost use Rattle.basket_report.specs.Report.{report_of};
ghost use Rattle.basket_report.specs.Style.{wording_of};

use crate::report::Report;
use crate::style::Style;
use crate::texts::Texts;
use basket_core::{CountedSets, MOST_ITEMS};
use std::alloc::{AllocError, Global};

/// The report of the sets with their counts.
#[tactic(auto, using(std::proofs::lemmas::Grind::common_steps))]
pub fn sets_report(
    alloc: Global,
    sets: &CountedSets,
    style: Style<'_>,
) -> Result<Vec<u8>, AllocError>
    ensures { IfOk result (λ report. report.items ≡ report_of (wording_of style.entry) sets.now) }
{
    let texts = Texts::below(alloc, 0)?;
    let mut report = Report::new(alloc, style, &texts);
    let mut room = [0u32; MOST_ITEMS];
    for index in 0..sets.len() {
        report.put_set(sets.items(index, &mut room), sets.count(index))?;
    }
    report.into_text()
}
