ghost use Rattle.std.specs.Prelude.{◌≡◌, ◌↔◌, IsTrue, Some, codes};
ghost use Rattle.geometry.specs.Limits.{Stretch};
ghost use Rattle.geometry.specs.StretchedLift.{Made, refusal};

use super::{StretchOutOfRange, Stretched};
use std::error::Error;
use std::fmt;

impl StretchOutOfRange {
    /// The number of this refusal.
    pub fn number(&self) -> u16
        ensures { result ≡ refusal self.now }
    {
        14
    }
}

impl fmt::Display for StretchOutOfRange {
    ghost output = { λ _. Some (codes "a stretch is not 1, 2 or 3") };

    fn fmt<W: fmt::Write>(&self, f: &mut fmt::Formatter<W>) -> fmt::Result {
        f.write_str("a stretch is not 1, 2 or 3")
    }
}

impl Error for StretchOutOfRange {}

/// Whether a number can be a stretch.
fn is_stretch(n: u32) -> bool
    ensures { IsTrue result ↔ Stretch n }
{
    (1..=3).contains(&n)
}

impl Stretched {
    /// The measure with these stretches along x, y and z, or a refusal unless each is 1, 2 or 3.
    pub fn new(alpha: u32, beta: u32, gamma: u32) -> Result<Stretched, StretchOutOfRange>
        ensures { Made alpha beta gamma result }
    {
        if is_stretch(alpha) && is_stretch(beta) && is_stretch(gamma) {
            Ok(Stretched { alpha, beta, gamma })
        } else {
            Err(StretchOutOfRange)
        }
    }
}
