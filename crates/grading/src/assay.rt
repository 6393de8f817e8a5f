//! Chemical assay: amounts of a substance in the ground, in milligrams per kilogram.
ghost use Rattle.std.specs.Prelude.{◌≡◌, ◌<◌, false, length};
ghost use Rattle.std.specs.Float.{float_max};
ghost use Rattle.std.specs.Float.Ieee.Exact.{HasValue};
ghost use Rattle.grading.specs.Assay.{admitted_amount, admitted_reading, amount, assay_class, counted, largest_counted, reached, reading_of};
ghost use Rattle.grading.specs.Largest.{front_swap, middle_swap, back_swap};
ghost use Rattle.std.proofs.Common.{rules};

use crate::counts::one_more;
use crate::grading::Grading;

/// What the laboratory says of one sample.
#[derive(Clone, Copy, Debug, PartialEq)]
pub enum Reading {
    /// The amount that was found.
    Measured(f64),
    /// Nothing was found, by a method that would have found this amount.
    Below(f64),
    /// No result came.
    Missing,
}

/// The grading by the largest amount found at a tetrahedron's points.
#[derive(Clone, Copy, PartialEq, Eq, Hash, Default, Debug)]
pub struct Assay;

/// The largest amount that is admitted.
const LARGEST: f64 = 1_000_000.0;

/// Each limit that the largest amount reaches raises the class by one.
const LIMITS: [f64; 7] = [10.0, 50.0, 100.0, 500.0, 1_000.0, 5_000.0, 10_000.0];

impl Grading for Assay {
    type Reading = Reading;

    ghost admitted = { λ _ r. admitted_reading r };

    ghost classed = { λ _ a b c d. assay_class a b c d };

    ghost decoded = { λ _ tag value. reading_of tag value };

    ghost eight = { Prim.search rules };

    ghost front = { λ g a b c d. front_swap a b c d };

    ghost middle = { λ g a b c d. middle_swap a b c d };

    ghost back = { λ g a b c d. back_swap a b c d };

    fn admits(&self, reading: &Reading) -> bool {
        match reading {
            Reading::Measured(amount) | Reading::Below(amount) => in_range(*amount),
            Reading::Missing => true,
        }
    }

    #[tactic(auto, using(crate::proofs::Amounts::literal_limits))]
    fn class(&self, a: &Reading, b: &Reading, c: &Reading, d: &Reading) -> u8 {
        limits_reached(&LIMITS, largest(a, b, c, d))
    }

    fn decode(&self, tag: u8, value: u32) -> Option<Reading> {
        // The tags are numbers by the format of survey words.
        match tag {
            0 => Some(Reading::Measured(quarter(value))),
            1 => Some(Reading::Below(quarter(value))),
            2 if value == 0 => Some(Reading::Missing),
            _ => None,
        }
    }
}

/// Amounts from 0 to a million are admitted.
#[tactic(auto, using(crate::proofs::Amounts::at_most, crate::proofs::Amounts::literal_zero, crate::proofs::Amounts::literal_million))]
fn in_range(amount: f64) -> bool
    ensures { result ≡ admitted_amount amount }
{
    (0.0..=LARGEST).contains(&amount)
}

/// A measured amount counts as itself. Not-a-number, which a caller may have put into a record,
/// counts as zero, and so do the other two cases.
#[tactic(auto, using(crate::proofs::Amounts::literal_zero))]
fn counts_as(reading: &Reading) -> f64
    ensures { result ≡ counted reading.now }
{
    match reading {
        Reading::Measured(amount) => if amount.is_nan() { 0.0 } else { *amount },
        Reading::Below(_) => 0.0,
        Reading::Missing => 0.0,
    }
}

/// The largest of the four counted values.
fn largest(a: &Reading, b: &Reading, c: &Reading, d: &Reading) -> f64
    ensures { result ≡ largest_counted a.now b.now c.now d.now }
{
    larger(
        larger(larger(counts_as(a), counts_as(b)), counts_as(c)),
        counts_as(d),
    )
}

/// The larger of two values. Of two that compare equal, as 0 and -0, it is the first, where `max` may
/// answer either.
fn larger(a: f64, b: f64) -> f64
    ensures { result ≡ float_max a b }
{
    if b <= a || b.is_nan() { a } else { b }
}

/// How many of the limits an amount reaches, which is at least as large. Not-a-number reaches none.
fn limits_reached(limits: &[f64], amount: f64) -> u8
    requires { length limits.now < 256 }
    ensures { result ≡ reached limits.now amount }
{
    // No `filter` and `count`: that took half as long again.
    limits
        .iter()
        .fold(0, |count, limit| one_more(count, *limit <= amount))
}

/// Survey words give amounts in quarters of a milligram per kilogram.
#[tactic(auto, using(crate::proofs::Amounts::literal_four, crate::proofs::Amounts::quarter_exact))]
fn quarter(value: u32) -> f64
    ensures is { result ≡ amount value }
    ensures exact { HasValue result false value 4 }
{
    f64::from(value) / 4.0
}
