//! Rules that meet the confidence, before their items are put together.
ghost use Rattle.std.specs.Prelude.{◌≡◌, ◌≤◌, ◌⊎◌, IfNone, IfSome};

use crate::consequents::Consequent;

/// A rule of a union: its consequent, and the supports of both sides.
#[derive(Clone, Copy, Debug)]
pub struct ConfidentRule {
    pub(crate) consequent: Consequent,
    pub(crate) antecedent_count: u64,
    pub(crate) consequent_count: u64,
    ghost some_antecedent: { 1 ≤ antecedent_count },
    ghost some_consequent: { 1 ≤ consequent_count },
}

impl ConfidentRule {
    /// The rule with these supports, or none if one is 0, which no support of a frequent set is.
    pub(crate) fn new(
        consequent: Consequent,
        antecedent_count: u64,
        consequent_count: u64,
    ) -> Option<Self>
        ensures some { IfSome result (λ met. (met.consequent ≡ consequent) × (met.antecedent_count ≡ antecedent_count) × (met.consequent_count ≡ consequent_count)) }
        ensures none { IfNone result ((antecedent_count ≡ 0) ⊎ (consequent_count ≡ 0)) }
    {
        if antecedent_count == 0 || consequent_count == 0 {
            return None;
        }
        Some(ConfidentRule {
            consequent,
            antecedent_count,
            consequent_count,
        })
    }
}
