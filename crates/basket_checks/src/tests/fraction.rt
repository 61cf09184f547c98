use super::assert_text;
use basket_core::Fraction;
use std::alloc::{AllocError, Global};
use std::fmt::Write;

/// The fractions as text.
fn text(alloc: Global, fractions: &[(u128, u128)]) -> Result<String, AllocError> {
    let mut text = String::new(alloc);
    for &(numerator, denominator) in fractions {
        if denominator > 0 {
            write!(text, "{} ", Fraction::reduced(numerator, denominator))?;
        }
    }
    Ok(text)
}

/// The last is of 2^100 and three times 2^50.
#[test]
fn a_fraction_is_printed_in_lowest_terms(rt: HostRuntime) -> Result<(), AllocError> {
    let fractions = [
        (18, 8),
        (36, 36),
        (0, 5),
        (7, 10),
        (
            1_267_650_600_228_229_401_496_703_205_376,
            3_377_699_720_527_872,
        ),
    ];
    assert_text(
        &rt,
        text(rt.alloc(), &fractions)?.as_str(),
        "9/4 1/1 0/1 7/10 1125899906842624/3 ",
    );
    Ok(())
}
