ghost use Rattle.std.specs.Prelude.{◌≡◌, ◌*◌, ◌≤◌};
ghost use Rattle.geometry.specs.Lifts.{IgnoresPenalties};
ghost use Rattle.geometry.specs.Points.{spot};
ghost use Rattle.geometry.specs.StretchedLift.{stretched_by};
ghost use Rattle.geometry.specs.Measures.{stretched_bounded};

use super::Stretched;
use crate::measure::Measure;
use crate::point::Point;
use crate::square::square;

/// The square of a coordinate, counted `stretch` times.
fn scaled(stretch: u32, n: u16) -> u32
    requires { (stretch ≤ 3) × (n ≤ 2560) }
    ensures is { result ≡ stretch * (n * n) }
    ensures low { result ≤ 19660800 }
{
    stretch * square(n)
}

impl Measure for Stretched {
    ghost lifts = { stretched_by };

    ghost bounded = { λ m s h. stretched_bounded m s h };

    fn lift(&self, p: &Point) -> u32
        ensures is { result ≡ stretched_by self.now (spot p.now) }
        ensures unpenalised { IgnoresPenalties (stretched_by self.now) }
    {
        scaled(self.alpha, p.x) + scaled(self.beta, p.y) + scaled(self.gamma, p.z)
    }
}
