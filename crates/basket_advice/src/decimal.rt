/// A share that is written as a decimal.
#[derive(Clone, Copy, Debug, PartialEq, Eq)]
pub struct Decimal {
    pub numerator: u64,
    pub denominator: u64,
}

/// The powers of ten, for so many digits behind the point.
const SCALES: [u64; 10] = [
    1,
    10,
    100,
    1_000,
    10_000,
    100_000,
    1_000_000,
    10_000_000,
    100_000_000,
    1_000_000_000,
];

impl Decimal {
    /// Reads a decimal above 0, as `0.2`, `,25` or `2.5%`, in lowest terms. `1,000` is none: it is
    /// rather a thousand.
    pub fn parse(text: &str) -> Option<Self> {
        let number = text.strip_suffix('%').unwrap_or(text);
        let (whole, digits) = number.split_once('.').or(number.split_once(','))?;
        if number.contains(',') && !matches!(whole, "" | "0") {
            return None;
        }
        let scale = *SCALES.get(digits.len())?;
        let least = if number.len() < text.len() { 100 } else { 1 };
        let part = number_of(digits)?;
        let whole = if whole.is_empty() {
            0
        } else {
            number_of(whole)?
        };
        let numerator = whole.saturating_mul(scale).saturating_add(part);
        Self::lowest(numerator, scale.saturating_mul(least))
    }

    /// Both are divided by 2 and 5, since the denominator has no other divisor.
    fn lowest(numerator: u64, denominator: u64) -> Option<Self> {
        if numerator == 0 {
            return None;
        }
        let mut lowest = Decimal {
            numerator,
            denominator,
        };
        for _ in 0..SCALES.len() + 2 {
            lowest = lowest.divided(2).divided(5);
        }
        Some(lowest)
    }

    /// Both divided by a number, if it divides both.
    fn divided(self, divisor: u64) -> Self {
        let Decimal {
            numerator,
            denominator,
        } = self;
        if divisor == 0 || numerator % divisor != 0 || denominator % divisor != 0 {
            return self;
        }
        Decimal {
            numerator: numerator / divisor,
            denominator: denominator / divisor,
        }
    }

    /// The percentage, if it is a whole number.
    pub fn percent(self) -> Option<u64> {
        let parts = self.numerator.checked_mul(100)?;
        if self.denominator != 0 && parts % self.denominator == 0 {
            Some(parts / self.denominator)
        } else {
            None
        }
    }
}

fn number_of(digits: &str) -> Option<u64> {
    if digits.len() < 10 && digits.bytes().all(|byte| byte.is_ascii_digit()) {
        digits.parse().ok()
    } else {
        None
    }
}
