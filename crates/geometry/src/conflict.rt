ghost use Rattle.std.specs.Prelude.{◌≡◌};
ghost use Rattle.geometry.specs.Conflicts.{conflict_by};
ghost use Rattle.geometry.specs.Points.{spot};

use crate::measure::Measure;
use crate::point::Point;
use crate::sign::Sign;

/// Whether `e` conflicts with the tetrahedron `a`, `b`, `c`, `d`: its Depth is above zero, and not only at it.
pub fn conflicts<M: Measure>(
    measure: &M,
    a: &Point,
    b: &Point,
    c: &Point,
    d: &Point,
    e: &Point,
) -> bool
    ensures { result ≡ conflict_by (M.Measure.lifts measure.now) (spot a.now) (spot b.now) (spot c.now) (spot d.now) (spot e.now) }
{
    measure.verdict(a, b, c, d, e) == Sign::Positive
}
