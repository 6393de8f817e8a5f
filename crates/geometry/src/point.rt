ghost use Rattle.geometry.specs.Limits.{Light, Near};

/// The largest sum of a point's coordinates.
pub const REACH: u32 = 2560;

/// The largest penalty of a point.
pub const HEAVIEST: u32 = 1_000_000;

/// A point that may exist: a place in the big tetrahedron, in decimetres, and a penalty.
///
/// The limits stand in the type, so whoever is lent a point need not ask about them again.
#[derive(Clone, Copy, PartialEq, Eq, Hash, Debug)]
pub struct Point {
    pub(crate) x: u16,
    pub(crate) y: u16,
    pub(crate) z: u16,
    pub(crate) penalty: u32,
    ghost near: { Near x y z },
    ghost light: { Light penalty },
}

mod make;
