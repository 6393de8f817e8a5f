//! Faces of tetrahedron records.
ghost use Rattle.std.specs.Prelude.{◌≡◌, ◌<◌, [], ◌∷◌};
ghost use Rattle.mesh.specs.Records.{face_at, is_outer, opposite as opposite_slot, tet_of};
ghost use Rattle.mesh.specs.Tetrahedra.{has, has_face, on as is_on};
ghost use Rattle.survey.specs.Faces.{triple_of};

use crate::site::FIRST_SITE;
use mesh::record::TetRecord;

/// Three point numbers, in the order that they have around a tetrahedron.
#[derive(Clone, Copy, Debug, PartialEq, Eq)]
pub(crate) struct Face {
    pub x: u16,
    pub y: u16,
    pub z: u16,
}

impl Face {
    /// Face `i` of a record: the points other than point `i`. A number past 3 counts as 3.
    // So it asks nothing of its callers, and the last arm needs no `unreachable`.
    pub(crate) fn of(tet: &TetRecord, i: usize) -> Face
        ensures { triple_of result ≡ face_at tet.now i }
    {
        let [a, b, c, d] = tet.points;
        match i {
            0 => Face { x: b, y: c, z: d },
            1 => Face { x: a, y: d, z: c },
            2 => Face { x: a, y: b, z: d },
            _ => Face { x: a, y: c, z: b },
        }
    }

    /// The three point numbers in a list.
    pub(crate) fn numbers(&self) -> [u16; 3]
        ensures { result ≡ self.now.x ∷ self.now.y ∷ self.now.z ∷ [] }
    {
        [self.x, self.y, self.z]
    }

    /// Whether the three points are corners.
    pub(crate) fn is_outer(&self) -> bool
        ensures { result ≡ is_outer (triple_of self.now) }
    {
        self.numbers().iter().all(|point| *point < FIRST_SITE)
    }

    /// Whether the point is one of the three.
    pub(crate) fn has_point(&self, point: u16) -> bool
        ensures { result ≡ is_on point (triple_of self.now) }
    {
        self.numbers().contains(&point)
    }

    /// Whether the record has the three points, in whatever order.
    pub(crate) fn belongs_to(&self, tet: &TetRecord) -> bool
        ensures { result ≡ has_face (triple_of self.now) (tet_of tet.now) }
    {
        has_point(tet, self.x) && has_point(tet, self.y) && has_point(tet, self.z)
    }

    /// The slot of the record's first point that is not one of the three, and 3 where there is none.
    // A slot and no `Option`: there is none only where a record has a point twice, and such tables are refused.
    pub(crate) fn opposite(&self, tet: &TetRecord) -> usize
        ensures is { result ≡ opposite_slot (tet_of tet.now) (triple_of self.now) }
        ensures slot { result < 4 }
    {
        tet.points
            .iter()
            .position(|point| !self.has_point(*point))
            .unwrap_or(3)
    }
}

/// Whether the point is one of the record's.
fn has_point(tet: &TetRecord, point: u16) -> bool
    ensures { result ≡ has point (tet_of tet.now) }
{
    tet.points.contains(&point)
}
