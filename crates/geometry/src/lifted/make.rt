ghost use Rattle.std.specs.Prelude.{◌≡◌};
ghost use Rattle.geometry.specs.Limits.{Low};
ghost use Rattle.geometry.specs.LiftedPoints.{Raised};

use super::{HIGHEST, LiftedPoint};
use crate::point::Point;

impl LiftedPoint {
    /// The point at this lift, or `None` where the lift passes the limit.
    pub fn new(point: Point, lift: u32) -> Option<LiftedPoint>
        ensures { Raised point lift result }
    {
        // `then` is no plainer: its closure would have to be told again that the lift is within the limit.
        if lift > HIGHEST {
            return None;
        }
        Some(LiftedPoint { point, lift })
    }

    /// The point at a lift that is known to be within the limit.
    pub(crate) fn at(point: &Point, lift: u32) -> LiftedPoint
        requires { Low lift }
        ensures place { result.point ≡ point.now }
        ensures height { result.lift ≡ lift }
    {
        LiftedPoint {
            point: *point,
            lift,
        }
    }
}
