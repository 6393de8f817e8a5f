ghost use Rattle.std.specs.Prelude.{◌≡◌};
ghost use Rattle.geometry.specs.Depths.{depth_by};
ghost use Rattle.geometry.specs.Lifts.{Lift};
ghost use Rattle.geometry.specs.Limits.{Low};
ghost use Rattle.geometry.specs.Points.{spot};
ghost use Rattle.geometry.specs.Signs.{number, signum};
ghost use Rattle.geometry.specs.Spots.{Spot, InLimits};

use crate::depth::depth;
use crate::lifted::LiftedPoint;
use crate::point::Point;
use crate::sign::Sign;

/// A way to lift points, which decides what conflicts with what.
///
/// Whoever makes a measure says what it means, as a function on the numbers of a point, shows that no point
/// that exists is lifted above 20,000,000, and that both answers are true to that meaning. Neither question
/// can be refused, and neither alters the measure.
pub trait Measure {
    // What the measure means: the lift of every spot.
    ghost lifts: { Self → Lift };

    /// The lift of a point.
    fn lift(&self, p: &Point) -> u32
        ensures is { result ≡ lifts self.now (spot p.now) };

    /// The sign of Depth: `Positive` where `e` conflicts with the tetrahedron `a`, `b`, `c`, `d`.
    fn verdict(&self, a: &Point, b: &Point, c: &Point, d: &Point, e: &Point) -> Sign
        ensures is { number result ≡ signum (depth_by (lifts self.now) (spot a.now) (spot b.now) (spot c.now) (spot d.now) (spot e.now)) }
    {
        let raised = |p: &Point| LiftedPoint::at(p, self.lift(p));
        Sign::from(depth(&raised(a), &raised(b), &raised(c), &raised(d), &raised(e)))
    }

    // No point that exists is lifted above the limit.
    ghost bounded: { (m : Self) (s : Spot) → InLimits s → Low (lifts m s) };
}
