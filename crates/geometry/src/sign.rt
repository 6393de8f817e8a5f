ghost use Rattle.std.specs.Prelude.{◌≡◌};
ghost use Rattle.geometry.specs.Signs.{number as number_of, signum};

use std::cmp::Ordering;

/// Whether a number is below, at or above zero.
#[derive(Clone, Copy, PartialEq, Eq, PartialOrd, Ord, Hash, Debug)]
pub enum Sign {
    Negative,
    Zero,
    Positive,
}

impl From<i64> for Sign {
    ghost from_gives = { λ n sign. number_of sign ≡ signum n };

    fn from(n: i64) -> Sign {
        match n.cmp(&0) {
            Ordering::Less => Sign::Negative,
            Ordering::Equal => Sign::Zero,
            Ordering::Greater => Sign::Positive,
        }
    }
}

impl Sign {
    /// The sign as a number: -1, 0 or 1.
    pub fn number(self) -> i8
        ensures { result ≡ number_of self }
    {
        match self {
            Sign::Negative => -1,
            Sign::Zero => 0,
            Sign::Positive => 1,
        }
    }
}
