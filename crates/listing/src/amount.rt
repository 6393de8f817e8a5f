//! Amounts in decimals.
ghost use Rattle.std.specs.Prelude.{◌≡◌, ℕ, ◌^◌, ◌<◌, Some};
ghost use Rattle.grading.specs.Assay.{amount as quarter_of};
ghost use Rattle.listing.specs.Amounts.{amount_text, quarters_in, quarters_text};

use std::fmt;
use std::num::saturating_f64_to_u32;

/// An amount that is shown in decimals, cut to quarters. An amount of a survey word is a whole number
/// of quarters, so nothing is cut from it.
#[derive(Clone, Copy)]
pub(crate) struct Amount(pub(crate) f64);

impl fmt::Display for Amount {
    ghost output = { λ amount. Some (amount_text amount.0) };

    fn fmt<W: fmt::Write>(&self, f: &mut fmt::Formatter<W>) -> fmt::Result {
        let quarters = quarters_in(self.0);
        let decimals = match quarters % 4 {
            0 => "",
            1 => ".25",
            2 => ".5",
            _ => ".75",
        };
        write!(f, "{}{decimals}", quarters / 4)
    }
}

/// How many quarters an amount has, cut to a whole number.
fn quarters_in(amount: f64) -> u32
    ensures value { result ≡ quarters_in amount }
    ensures exact { (n : ℕ) → n < 2 ^ 32 → amount_text (quarter_of n) ≡ quarters_text n }
{
    saturating_f64_to_u32(amount * 4.0)
}
