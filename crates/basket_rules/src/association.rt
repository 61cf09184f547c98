//! Association rules (Agrawal and Srikant 1994).
ghost use Rattle.std.specs.Prelude.{◌≡◌, ◌<◌, ◌-◌, ◌*◌, ◌++◌, IfOk, OnOk, length, nat_le};
ghost use Rattle.basket_sets.specs.Itemset.{IsRising};
ghost use Rattle.basket_rules.specs.Consistency.{IsConsistent};
ghost use Rattle.basket_rules.specs.Listed.{set_at};
ghost use Rattle.basket_rules.specs.Confident.{found_rule, rule_from, rules_in};
ghost use Rattle.basket_rules.specs.Consequents.{side_of};
ghost use Rattle.basket_rules.specs.Rules.{KeepsConfident, AreRules, AreRulesWith, IsRuleFor, rules_among, rules_among_with};

use crate::confident::ConfidentRule;
use crate::consequents::{Consequent, MOST_BITS, Sides, longer_consequents};
use crate::listed::items_at;
use crate::query::RuleQuery;
use crate::rule_counts::RuleCounts;
use crate::set_index::{SetIndex, index_table_of};
use basket_core::{Fraction, Frequent, Itemset, MOST_ITEMS, Share};
use basket_order::IndexTable;
use std::alloc::{AllocError, Global};

/// The rules of a union of up to this many items have room before they are made.
const MOST_ROOM: usize = 10;

/// A rule: baskets that have the antecedent often have the consequent too. Neither is empty, and they
/// have no item in common.
#[derive(Debug, PartialEq, Eq, Drop)]
pub struct Rule {
    pub antecedent: Itemset,
    pub consequent: Itemset,
    /// The support of both sides together.
    pub count: u64,
    /// Which share of the baskets with the antecedent has the consequent too.
    pub confidence: Fraction,
    /// How many times as often the consequent occurs beside the antecedent as in all baskets.
    pub lift: Fraction,
}

/// The rules that meet the confidence: union after union in report order, those of one union by
/// their consequents in report order.
pub fn rules(alloc: Global, frequent: &Frequent, confidence: Share) -> Result<Vec<Rule>, AllocError>
    ensures baskets { IfOk result (λ rules. AreRules frequent.now confidence rules.items) }
    ensures lists { IfOk result (λ rules. IsConsistent frequent.now.sets → rules.items ≡ rules_among frequent.now confidence) }
{
    let sets = frequent.sets();
    let table = index_table_of(alloc, sets)?;
    let mut set_index = SetIndex::new(alloc, &table);
    let mut rules = Vec::new(alloc);
    for number in 0..sets.len() {
        let met = met_rules(alloc, frequent, number, confidence, &mut set_index)?;
        add_rules(alloc, frequent, number, &met, &mut set_index, &mut rules)?;
    }
    Ok(rules)
}

/// The rules that meet the confidence whose union is the set at the index.
pub fn rules_with(
    alloc: Global,
    frequent: &Frequent,
    number: usize,
    confidence: Share,
) -> Result<Vec<Rule>, AllocError>
    requires { number < length frequent.now.sets }
    ensures baskets { IfOk result (λ rules. AreRulesWith frequent.now confidence number rules.items) }
    ensures lists { IfOk result (λ rules. IsConsistent frequent.now.sets → rules.items ≡ rules_among_with frequent.now confidence (set_at frequent.now.sets number)) }
{
    let table = IndexTable::none(alloc);
    let mut set_index = SetIndex::new(alloc, &table);
    let met = met_rules(alloc, frequent, number, confidence, &mut set_index)?;
    let mut rules = Vec::with_capacity(alloc, met.len())?;
    add_rules(alloc, frequent, number, &met, &mut set_index, &mut rules)?;
    Ok(rules)
}

/// Adds the rules with the set at the index as their union.
fn add_rules(
    alloc: Global,
    frequent: &Frequent,
    number: usize,
    met: &[ConfidentRule],
    set_index: &mut SetIndex<'_>,
    rules: &mut Vec<Rule>,
) -> Result<(), AllocError>
    requires { number < length frequent.now.sets }
    ensures { OnOk result (rules.new.items ≡ rules.old.items ++ rules_in frequent.now number met.now) }
{
    for rule in met {
        let counts = set_index.rule(frequent, number, rule)?;
        rules.push(rule_of_sides(alloc, &set_index.sides, &counts)?)?;
    }
    Ok(())
}

/// The rule with these sides and counts.
fn rule_of_sides(alloc: Global, sides: &Sides, counts: &RuleCounts) -> Result<Rule, AllocError>
    requires antecedent { IsRising sides.now.antecedent.items }
    requires consequent { IsRising sides.now.consequent.items }
    ensures { IfOk result (λ rule. rule ≡ rule_from sides.now counts.now) }
{
    Ok(Rule {
        antecedent: Itemset::from_items(alloc, &sides.antecedent)?,
        consequent: Itemset::from_items(alloc, &sides.consequent)?,
        count: counts.count,
        confidence: counts.confidence(),
        lift: counts.lift(),
    })
}

/// The rules that meet the confidence whose union is the set at the index, without their items.
/// Consequents go level by level: those of one more item are the ones that met the confidence, each
/// with an item before its first.
pub fn met_rules(
    alloc: Global,
    frequent: &Frequent,
    number: usize,
    confidence: Share,
    set_index: &mut SetIndex<'_>,
) -> Result<Vec<ConfidentRule>, AllocError>
    requires { number < length frequent.now.sets }
    ensures baskets { IfOk result (λ rules. AreRulesWith frequent.now confidence number (rules_in frequent.now number rules.items)) }
    ensures lists { IfOk result (λ rules. IsConsistent frequent.now.sets → rules_in frequent.now number rules.items ≡ rules_among_with frequent.now confidence (set_at frequent.now.sets number)) }
{
    let sets = frequent.sets();
    let mut room = [0; MOST_ITEMS];
    let items = items_at(sets, number, &mut room);
    let count = items.len();
    let mut rules = Vec::with_capacity(alloc, sets.len().min(1 << count.min(MOST_ROOM)))?;
    // No list has the subsets of a larger set.
    if count > MOST_BITS {
        return Ok(rules);
    }
    set_index.hashes.set(items)?;
    let query = RuleQuery {
        frequent,
        number,
        items,
        count: sets.count(number),
        confidence,
    };
    let mut consequents = longer_consequents(alloc, &[Consequent::none()], count)?;
    for size in 0..most_consequent_items(count) {
        let met = keep_confident(alloc, &query, &consequents, set_index, &mut rules)?;
        consequents = longer_consequents(alloc, &met, count)?;
    }
    Ok(rules)
}

/// How many items a consequent has at most, since an antecedent has one too.
fn most_consequent_items(count: usize) -> usize
    ensures { result ≡ count - 1 }
{
    count.saturating_sub(1)
}

/// The consequents whose rules meet the confidence. Their rules are added.
fn keep_confident(
    alloc: Global,
    query: &RuleQuery<'_>,
    tried: &[Consequent],
    set_index: &mut SetIndex<'_>,
    rules: &mut Vec<ConfidentRule>,
) -> Result<Vec<Consequent>, AllocError>
    ensures { IfOk result (λ met. KeepsConfident query.now.frequent.now query.now.confidence query.now.number tried.now met.items
        (rules_in query.now.frequent.now query.now.number rules.old.items) (rules_in query.now.frequent.now query.now.number rules.new.items)) }
{
    let whole = set_index.hashes.side(u64::MAX);
    let mut met = Vec::with_capacity(alloc, tried.len())?;
    for consequent in tried {
        if let Some(rule) = rule_for(query, *consequent, whole, set_index)? {
            rules.push(rule)?;
            met.push(*consequent)?;
        }
    }
    Ok(met)
}

/// The rule with this consequent, if it meets the confidence. `whole` is the hash of the union.
fn rule_for(
    query: &RuleQuery<'_>,
    consequent: Consequent,
    whole: u64,
    set_index: &mut SetIndex<'_>,
) -> Result<Option<ConfidentRule>, AllocError>
    ensures { IfOk result (λ found. IsRuleFor query.now.frequent.now query.now.confidence query.now.number (side_of (set_at query.now.frequent.now.sets query.now.number) consequent) (found_rule query.now.frequent.now query.now.number found)) }
{
    let part = set_index.hashes.side(consequent.bits);
    let antecedent_count = query.count_of(!consequent.bits, whole.wrapping_sub(part), set_index)?;
    if !meets(query.confidence, query.count, antecedent_count) {
        return Ok(None);
    }
    let consequent_count = query.count_of(consequent.bits, part, set_index)?;
    Ok(ConfidentRule::new(consequent, antecedent_count, consequent_count))
}

/// Whether a count is at least this share of that of the antecedent.
fn meets(confidence: Share, count: u64, antecedent_count: u64) -> bool
    ensures { result ≡ nat_le (confidence.0 * antecedent_count) (count * confidence.1) }
{
    u128::from(confidence.numerator()) * u128::from(antecedent_count)
        <= u128::from(count) * u128::from(confidence.denominator())
}
