//! Tetrahedron records together with the points that they name.
ghost use Rattle.mesh.specs.Orientations.{Under};
ghost use Rattle.mesh.specs.Records.{tet_of};
ghost use Rattle.survey.specs.Views.{count};

use crate::points::Points;
use geometry::point::Point;
use geometry::side::side;
use mesh::record::TetRecord;

/// A record whose point numbers are numbers of the points.
#[derive(Clone, Copy)]
pub(crate) struct Tetrahedron<'a> {
    pub(crate) points: Points<'a>,
    pub(crate) tet: &'a TetRecord,
    ghost under: { Under (count points) (tet_of tet.now) },
}

impl<'a> Tetrahedron<'a> {
    ghost use Rattle.std.specs.Prelude.{◌≡◌, ◌≤◌, map, unsigned_abs};
    ghost use Rattle.geometry.specs.Points.{spot};
    ghost use Rattle.mesh.specs.Spaces.{side_of};
    ghost use Rattle.survey.specs.Views.{around};
    ghost use Rattle.survey.specs.Wholes.{shape, space};

    /// The four points in order.
    pub(crate) fn corners(&self) -> [Point; 4]
        ensures { map spot result ≡ around (space self.now) (shape self.now) }
    {
        // No `map`: that each number is a point's is known of the four by name, and not of what a closure is given.
        let [a, b, c, d] = self.tet.points;
        [
            self.points.point(a),
            self.points.point(b),
            self.points.point(c),
            self.points.point(d),
        ]
    }

    /// The signed volume.
    pub(crate) fn side(&self) -> i64
        ensures is { result ≡ side_of (space self.now) (shape self.now) }
        ensures size { unsigned_abs result ≤ 100663296000 }
    {
        let [a, b, c, d] = self.corners();
        side(&a, &b, &c, &d)
    }
}
