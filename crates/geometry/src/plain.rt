ghost use Rattle.std.specs.Prelude.{◌≡◌};
ghost use Rattle.geometry.specs.Lifts.{IgnoresPenalties};
ghost use Rattle.geometry.specs.PlainLift.{plain};
ghost use Rattle.geometry.specs.Points.{spot};
ghost use Rattle.geometry.specs.Measures.{plain_bounded};

use crate::measure::Measure;
use crate::point::Point;
use crate::square::square;

/// The measure that lifts a point by the square of its distance from the origin. It ignores penalties.
///
/// A point conflicts under it where it lies strictly inside the sphere through the tetrahedron's points.
#[derive(Clone, Copy, PartialEq, Eq, Hash, Default, Debug)]
pub struct Plain;

impl Measure for Plain {
    ghost lifts = { λ _. plain };

    ghost bounded = { λ m s h. plain_bounded s h };

    fn lift(&self, p: &Point) -> u32
        ensures is { result ≡ plain (spot p.now) }
        ensures unpenalised { IgnoresPenalties plain }
    {
        square(p.x) + square(p.y) + square(p.z)
    }
}
