//! The corners of the big tetrahedron, as records of the point table.
ghost use Rattle.std.specs.Prelude.{◌≡◌, ◌<◌, ◌==◌, ◌&&◌};
ghost use Rattle.survey.specs.Corners.{is_corner};

use crate::record::PointRecord;

/// How far the big tetrahedron reaches along each axis, in decimetres.
const REACH: u16 = geometry::point::REACH as u16;

/// The corner from which the axes go.
const ORIGIN: PointRecord = PointRecord {
    x: 0,
    y: 0,
    z: 0,
    penalty: 0,
    mark: 0,
};

/// Points 0 to 3, with which a point table begins.
// Written out beside `geometry::corner::corners`, which makes points: a constant cannot be made by a call, and a
// function here would make the records anew for each point that is compared to one.
pub(crate) const CORNERS: [PointRecord; 4] = [
    ORIGIN,
    PointRecord { x: REACH, ..ORIGIN },
    PointRecord { y: REACH, ..ORIGIN },
    PointRecord { z: REACH, ..ORIGIN },
];

/// Whether a record is that of corner `k`, with mark 0.
pub(crate) fn is_corner(k: usize, point: &PointRecord) -> bool
    requires { k < 4 }
    ensures { result ≡ (point.now.mark == 0 && is_corner k point.now) }
{
    *point == CORNERS[k]
}
