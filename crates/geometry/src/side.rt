ghost use Rattle.std.specs.Prelude.{◌≡◌, ◌≤◌, unsigned_abs};
ghost use Rattle.geometry.specs.Points.{spot};
ghost use Rattle.geometry.specs.Lifts.{ground};
ghost use Rattle.geometry.specs.Sides.{SideLaws, side as side_of};

use crate::offset::rows::{determinant, offset};
use crate::point::Point;

/// The signed volume of four points in order, in sixths of a cubic decimetre: the determinant whose rows
/// go from `a` to the other three. It is exact.
// Four points and no struct of them: `depth` and its kin put a fifth for each in turn, and would make the struct anew.
#[tactic(auto, unfolding(crate::specs::Sides::side))]
pub fn side(a: &Point, b: &Point, c: &Point, d: &Point) -> i64
    ensures is { result ≡ side_of (ground (spot a.now)) (ground (spot b.now)) (ground (spot c.now)) (ground (spot d.now)) }
    ensures size { unsigned_abs result ≤ 100663296000 }
{
    determinant(&offset(a, b), &offset(a, c), &offset(a, d))
}

/// Any swap of two points negates Side, and a fifth point, put for each of the four in turn, splits it.
pub fn side_laws_hold()
    ensures { SideLaws }
{}
