ghost use Rattle.std.specs.Prelude.{◌≡◌};
ghost use Rattle.geometry.specs.WeightedLift.{weighted};
ghost use Rattle.geometry.specs.Points.{spot};
ghost use Rattle.geometry.specs.Measures.{weighted_bounded};

use crate::measure::Measure;
use crate::plain::Plain;
use crate::point::Point;

/// The measure that lifts a point by the square of its distance from the origin, and by its penalty too.
#[derive(Clone, Copy, PartialEq, Eq, Hash, Default, Debug)]
pub struct Weighted;

impl Measure for Weighted {
    ghost lifts = { λ _. weighted };

    ghost bounded = { λ m s h. weighted_bounded s h };

    fn lift(&self, p: &Point) -> u32
        ensures is { result ≡ weighted (spot p.now) }
    {
        Plain.lift(p) + p.penalty
    }
}
