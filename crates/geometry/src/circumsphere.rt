ghost use Rattle.std.specs.Prelude.{◌≡◌};
ghost use Rattle.geometry.specs.Circumspheres.{Circumsphere, NearerInside};
ghost use Rattle.geometry.specs.Conflicts.{conflict_by};
ghost use Rattle.geometry.specs.PlainLift.{plain};
ghost use Rattle.geometry.specs.Points.{spot};

use crate::conflict::conflicts;
use crate::plain::Plain;
use crate::point::Point;

/// Whether `e` conflicts with the tetrahedron `a`, `b`, `c`, `d` under the plain measure.
///
/// The four points are equally far from one centre. Where their Side is above zero, the answer is whether `e`
/// is strictly nearer to it than they are.
pub fn inside_circumsphere(a: &Point, b: &Point, c: &Point, d: &Point, e: &Point) -> bool
    ensures is { result ≡ conflict_by plain (spot a.now) (spot b.now) (spot c.now) (spot d.now) (spot e.now) }
    ensures centred { Circumsphere (spot a.now) (spot b.now) (spot c.now) (spot d.now) }
    ensures nearer { NearerInside (spot a.now) (spot b.now) (spot c.now) (spot d.now) (spot e.now) result }
{
    conflicts(&Plain, a, b, c, d, e)
}
