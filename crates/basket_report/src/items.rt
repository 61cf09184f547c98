//! The report of the frequent items.
ghost use Rattle.std.specs.Prelude.{◌≡◌, IfOk};
ghost use Rattle.basket_report.specs.Items.{items_met};
ghost use Rattle.basket_report.specs.Report.{report_of};
ghost use Rattle.basket_report.specs.Style.{wording_of};

use crate::report::Report;
use crate::style::Style;
use crate::texts::Texts;
use basket_core::Minimum;
use std::alloc::{AllocError, Global};

/// The report of the items whose counts meet the minimum, if all baskets together have this weight.
pub fn items_report(
    alloc: Global,
    counts: &[(u32, u64)],
    minimum: Minimum,
    total: u64,
    style: Style<'_>,
) -> Result<Vec<u8>, AllocError>
    ensures { IfOk result (λ report. report.items ≡ report_of (wording_of style.entry) (items_met counts.now minimum total)) }
{
    let texts = Texts::below(alloc, 0)?;
    let mut report = Report::new(alloc, style, &texts);
    for (item, support) in counts {
        if minimum.met(*support, total) {
            report.put_set(&[*item], *support)?;
        }
    }
    report.into_text()
}
