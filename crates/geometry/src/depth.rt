ghost use Rattle.std.specs.Prelude.{◌≡◌, ◌≤◌, pos, ◌-ℤ◌, ◌*ℤ◌, unsigned_abs};
ghost use Rattle.geometry.specs.Depths.{Blend, depth as depth_of};
ghost use Rattle.geometry.specs.LiftedPoints.{raised};

use crate::lifted::LiftedPoint;
use crate::side::side;

/// One of Depth's four products: a Side, times how much higher `a` is lifted than `e`.
fn product(side: i64, a: &LiftedPoint, e: &LiftedPoint) -> i64
    requires { unsigned_abs side ≤ 100663296000 }
    ensures is { result ≡ side *ℤ (pos a.now.lift -ℤ pos e.now.lift) }
    ensures size { unsigned_abs result ≤ 2013265920000000000 }
{
    side * (i64::from(a.lift) - i64::from(e.lift))
}

/// How deep `e` lies below the lifted tetrahedron `a`, `b`, `c`, `d`, scaled by the tetrahedron's Side.
/// It is exact: no product and no sum passes 64 bits.
// Five points one by one, as in Side: a struct of four would be no plainer, since `e` takes the place of each in turn.
pub fn depth(
    a: &LiftedPoint,
    b: &LiftedPoint,
    c: &LiftedPoint,
    d: &LiftedPoint,
    e: &LiftedPoint,
) -> i64
    ensures is { result ≡ depth_of (raised a.now) (raised b.now) (raised c.now) (raised d.now) (raised e.now) }
    ensures size { unsigned_abs result ≤ 8053063680000000000 }
{
    let at_a = product(side(&e.point, &b.point, &c.point, &d.point), a, e);
    let at_b = product(side(&a.point, &e.point, &c.point, &d.point), b, e);
    let at_c = product(side(&a.point, &b.point, &e.point, &d.point), c, e);
    let at_d = product(side(&a.point, &b.point, &c.point, &e.point), d, e);
    at_a + at_b + at_c + at_d
}

/// How the Depths of one point under two tetrahedra on a common face differ.
pub fn blend_holds()
    ensures { Blend }
{}
