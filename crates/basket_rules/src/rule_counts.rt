//! The numbers of a rule.
ghost use Rattle.std.specs.Prelude.{◌≡◌, ◌≤◌};
ghost use Rattle.basket_rules.specs.Rules.{confidence_by, lift_by};

use basket_core::Fraction;

/// The supports of a rule, of which its confidence and its lift are made.
#[derive(Clone, Copy, Debug)]
pub struct RuleCounts {
    /// The support of both sides together.
    pub count: u64,
    /// The support of the empty set, which is that of all baskets.
    pub total: u64,
    pub antecedent_count: u64,
    pub consequent_count: u64,
    ghost some_antecedent: { 1 ≤ antecedent_count },
    ghost some_consequent: { 1 ≤ consequent_count },
}

impl RuleCounts {
    /// Which share of the baskets with the antecedent has the consequent too.
    pub fn confidence(&self) -> Fraction
        ensures { result ≡ confidence_by self.now.count self.now.antecedent_count }
    {
        Fraction::reduced(u128::from(self.count), u128::from(self.antecedent_count))
    }

    /// How many times as often the consequent occurs beside the antecedent as in all baskets.
    pub fn lift(&self) -> Fraction
        ensures { result ≡ lift_by self.now.count self.now.total self.now.antecedent_count self.now.consequent_count }
    {
        Fraction::reduced(
            u128::from(self.count) * u128::from(self.total),
            u128::from(self.antecedent_count) * u128::from(self.consequent_count),
        )
    }
}
