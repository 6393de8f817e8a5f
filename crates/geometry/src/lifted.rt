ghost use Rattle.geometry.specs.Limits.{Low};

use crate::point::Point;

/// The largest lift of a point.
pub const HIGHEST: u32 = 20_000_000;

/// A point with the number to which a measure lifts it, within the limit of all lifts.
#[derive(Clone, Copy, PartialEq, Eq, Hash, Debug)]
pub struct LiftedPoint {
    pub(crate) point: Point,
    pub(crate) lift: u32,
    ghost low: { Low lift },
}

mod make;
