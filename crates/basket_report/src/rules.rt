//! The report of association rules.
ghost use Rattle.std.specs.Prelude.{◌≡◌, ◌≤◌, ◌+◌, IfOk, length};
ghost use Rattle.basket_ranks.specs.Shards.{shard_start};
ghost use Rattle.basket_rules.specs.Consistency.{IsConsistent};
ghost use Rattle.basket_rules.specs.Rules.{rules_among};
ghost use Rattle.basket_report.specs.Bytes.{joined};
ghost use Rattle.basket_report.specs.Report.{rules_report_of};
ghost use Rattle.basket_report.specs.Rules.{ReportsRules, ReportsUnions};
ghost use Rattle.basket_report.specs.Style.{wording_of};

use crate::report::Report;
use crate::report_size::ReportSize;
use crate::style::Style;
use crate::texts::Texts;
use basket_core::{Frequent, Share, shard};
use basket_order::IndexTable;
use basket_rules::{SetIndex, index_table_of, met_rules};
use mine_pieces::{Cutting, Open, PartWork, Phase, by_pieces};
use std::alloc::{AllocError, Global};
use std::thread::Threads;

/// The number of the phase that makes the rules.
const PHASE: u32 = 3;

/// Fewer unions are not worth a claim.
const LEAST: usize = 64;

/// Unions don't take equally long, so there are up to this many parts for each worker.
const PARTS_FOR_EACH: u32 = 128;

/// The sets of a list as unions of rules, cut into parts, and what their reports need.
#[derive(Drop)]
struct Unions<'a> {
    frequent: &'a Frequent,
    confidence: Share,
    style: Style<'a>,
    indexes: &'a IndexTable,
    texts: &'a Texts,
    parts: u32,
}

impl<'a> PartWork<Vec<u8>> for Unions<'a> {
    type Tools = SetIndex<'a>;

    ghost part_count = { λ work. work.parts };

    ghost are_tools = { λ work set_index. Unit {0} };

    ghost is_value = { λ work part text. ReportsUnions (wording_of work.style) work.frequent.now work.confidence
        (shard_start part work.parts (length work.frequent.now.sets)) (shard_start (part + 1) work.parts (length work.frequent.now.sets)) text.items };

    fn parts(&self) -> u32 {
        self.parts
    }

    fn tools(&self, alloc: Global) -> Result<SetIndex<'a>, AllocError> {
        Ok(SetIndex::new(alloc, self.indexes))
    }

    #[tactic(auto, using(std::proofs::lemmas::Grind::common_steps, crate::proofs::RuleLemmas::more_rules))]
    fn value(
        &self,
        alloc: Global,
        set_index: &mut SetIndex<'a>,
        part: u32,
    ) -> Result<Vec<u8>, AllocError> {
        let (from, to) = shard(part, self.parts, self.frequent.sets().len());
        let mut report = Report::for_rules(alloc, self.style, self.texts)?;
        for number in from..to {
            let met = met_rules(alloc, self.frequent, number, self.confidence, set_index)?;
            report.put_rules(self.frequent, number, &met, set_index)?;
        }
        report.into_text()
    }
}

/// The report of the rules that meet the confidence, as texts one after another, which this many
/// workers make, at most 64. The rules of one union are made and written before those of the next.
pub fn rules_report<R: Threads + Sync>(
    rt: &R,
    alloc: Global,
    frequent: &Frequent,
    confidence: Share,
    style: Style<'_>,
    workers: u32,
) -> Result<Vec<Vec<u8>>, AllocError>
    ensures baskets { IfOk result (λ texts. ReportsRules (wording_of style.entry) frequent.now confidence (joined texts.items)) }
    ensures lists { IfOk result (λ texts. IsConsistent frequent.now.sets → joined texts.items ≡ rules_report_of (wording_of style.entry) (rules_among frequent.now confidence)) }
{
    let sets = frequent.sets();
    let indexes = index_table_of(alloc, sets)?;
    let texts = ReportSize::of(sets).texts(alloc)?;
    let workers = workers.clamp(1, 64);
    let parts = part_count(sets.len(), workers);
    let unions = Unions {
        frequent,
        confidence,
        style,
        indexes: &indexes,
        texts: &texts,
        parts,
    };
    by_pieces(
        rt,
        alloc,
        &unions,
        &Phase::new(PHASE, Cutting::new(workers, parts), &Open),
    )
}

/// Into how many parts the unions are cut.
fn part_count(unions: usize, workers: u32) -> u32
    requires { workers ≤ 64 }
    ensures { (1 ≤ result) × (result ≤ 65536) }
{
    let most = match workers {
        0 | 1 => 1,
        _ => workers * PARTS_FOR_EACH,
    };
    (unions / LEAST).clamp(1, most as usize) as u32
}
