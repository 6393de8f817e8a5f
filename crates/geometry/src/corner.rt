ghost use Rattle.std.specs.Prelude.{◌≡◌, map};
ghost use Rattle.geometry.specs.Limits.{Near};
ghost use Rattle.geometry.specs.Points.{spot};
ghost use Rattle.geometry.specs.Spots.{bare as bare_spot, corners as big_corners};

use crate::point::Point;

/// A point without a penalty.
fn bare(x: u16, y: u16, z: u16) -> Point
    requires { Near x y z }
    ensures { spot result ≡ bare_spot x y z }
{
    Point {
        x,
        y,
        z,
        penalty: 0,
    }
}

/// Points 0 to 3: the corners of the big tetrahedron, which holds every other point.
pub fn corners() -> [Point; 4]
    ensures { map spot result ≡ big_corners }
{
    [
        bare(0, 0, 0),
        bare(2560, 0, 0),
        bare(0, 2560, 0),
        bare(0, 0, 2560),
    ]
}
