ghost use Rattle.std.specs.Prelude.{◌≡◌, ◌≤◌, unsigned_abs};
ghost use Rattle.geometry.specs.Limits.{Short, Small};
ghost use Rattle.geometry.specs.Offsets.{MinorsOf, Between, expansion, minor as minor_of, rows as rows_of};

use super::{Minors, Offset, Row};
use crate::point::Point;

/// The way from `a` to `b`.
pub fn offset(a: &Point, b: &Point) -> Offset
    ensures { Between a.now b.now result }
{
    Row {
        x: i64::from(b.x) - i64::from(a.x),
        y: i64::from(b.y) - i64::from(a.y),
        z: i64::from(b.z) - i64::from(a.z),
    }
}

/// The determinant of the rows `(a, b)` and `(c, d)`.
fn minor(a: i64, b: i64, c: i64, d: i64) -> i64
    requires { Short a × Short b × Short c × Short d }
    ensures is { result ≡ minor_of a b c d }
    ensures size { Small result }
{
    a * d - b * c
}

/// The minors of two rows.
fn minors(v: &Offset, w: &Offset) -> Minors
    ensures { MinorsOf v.now w.now result }
{
    Row {
        x: minor(v.y, v.z, w.y, w.z),
        y: minor(v.x, v.z, w.x, w.z),
        z: minor(v.x, v.y, w.x, w.y),
    }
}

/// A determinant along its first row.
fn expanded(u: &Offset, m: &Minors) -> i64
    ensures is { result ≡ expansion u.now m.now }
    ensures size { unsigned_abs result ≤ 100663296000 }
{
    u.x * m.x - u.y * m.y + u.z * m.z
}

/// The determinant whose rows are the three ways.
#[tactic(auto, unfolding(crate::specs::Sides::det))]
pub fn determinant(u: &Offset, v: &Offset, w: &Offset) -> i64
    ensures is { result ≡ rows_of u.now v.now w.now }
    ensures size { unsigned_abs result ≤ 100663296000 }
{
    expanded(u, &minors(v, w))
}
