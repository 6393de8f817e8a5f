ghost use Rattle.std.specs.Prelude.{◌≡◌};
ghost use Rattle.geometry.specs.Points.{Made};

use super::{HEAVIEST, Point, REACH};

impl Point {
    /// The point with these numbers, or `None` where they pass a limit.
    pub fn new(x: u16, y: u16, z: u16, penalty: u32) -> Option<Point>
        ensures { Made (record { x = x; y = y; z = z; penalty = penalty }) result }
    {
        if u32::from(x) + u32::from(y) + u32::from(z) > REACH || penalty > HEAVIEST {
            return None;
        }
        Some(Point { x, y, z, penalty })
    }

    /// The first coordinate, in decimetres.
    pub fn x(&self) -> u16
        ensures { result ≡ self.now.x }
    {
        self.x
    }

    /// The second coordinate, in decimetres.
    pub fn y(&self) -> u16
        ensures { result ≡ self.now.y }
    {
        self.y
    }

    /// The third coordinate, in decimetres.
    pub fn z(&self) -> u16
        ensures { result ≡ self.now.z }
    {
        self.z
    }

    /// The penalty, which only some measures count.
    pub fn penalty(&self) -> u32
        ensures { result ≡ self.now.penalty }
    {
        self.penalty
    }
}
