//! The edges of the shell: each has to lie in exactly two shell faces, whose new records become
//! neighbours.
ghost use Rattle.std.specs.Prelude.{◌≡◌, ◌<◌, map, length, count_by, unwrap_or, not, ◌&&◌, ◌==◌};
ghost use Rattle.mesh.specs.Added.{edge_on};
ghost use Rattle.survey.specs.Cavity.{face_number};
ghost use Rattle.survey.specs.Edges.{edges_twice, has_edge, twice_at};
ghost use Rattle.survey.specs.Edges.{partner as nextdoor};
ghost use Rattle.survey.specs.Faces.{triple_of};

use crate::cavity::shell::Shell;
use crate::cavity::shell_face::ShellFace;
use crate::face::Face;
use mesh::record::TetRecord;

/// Whether the face has the points of a record other than those at slots `i` and `j`.
fn spans(face: &Face, tet: &TetRecord, i: usize, j: usize) -> bool
    ensures { result ≡ edge_on tet.now i j (triple_of face.now) }
{
    (0..4).all(|h| h == i || h == j || face.has_point(tet.points[h]))
}

impl Shell<'_, '_> {
    /// Whether shell face `other` has the edge of `face` that lacks point `j` of its record.
    fn shares_edge(&self, face: ShellFace, j: usize, other: ShellFace) -> bool
        requires { (face.record < length self.now.cavity.used.now) × (other.record < length self.now.cavity.used.now) }
        ensures { result ≡ has_edge self.now.cavity.used.now (face_number face) j (face_number other) }
    {
        let used = self.cavity.used;
        spans(
            &other.points(used),
            &used[face.record as usize],
            face.slot as usize,
            j,
        )
    }

    /// How many shell faces have the edge of `face` that lacks point `j` of its record.
    #[tactic(auto, using(crate::proofs::Ranges::count_mapped))]
    fn count_sharing(&self, face: ShellFace, j: usize) -> usize
        requires { face.record < length self.now.cavity.used.now }
        ensures { result ≡ count_by (has_edge self.now.cavity.used.now (face_number face) j) (map face_number self.now.faces.now) }
    {
        self.faces
            .iter()
            .filter(|other| self.shares_edge(face, j, **other))
            .count()
    }

    /// Whether each edge of `face` lies in exactly two shell faces.
    fn closed_at(&self, face: ShellFace) -> bool
        requires { face.record < length self.now.cavity.used.now }
        ensures { result ≡ twice_at self.now.cavity.used.now (map face_number self.now.faces.now) (face_number face) }
    {
        (0..4).all(|j| j == face.slot as usize || self.count_sharing(face, j) == 2)
    }

    /// Whether each shell edge lies in exactly two shell faces.
    pub(crate) fn edges_closed(&self) -> bool
        ensures { result ≡ edges_twice self.now.cavity.used.now (map face_number self.now.faces.now) }
    {
        self.faces.iter().all(|face| self.closed_at(*face))
    }

    /// Whether `other` is another shell face, and has the edge of `face` that lacks point `j` of its
    /// record.
    fn is_beside(&self, face: ShellFace, j: usize, other: ShellFace) -> bool
        requires { (face.record < length self.now.cavity.used.now) × (other.record < length self.now.cavity.used.now) }
        ensures { result ≡ (not (face_number other == face_number face) && has_edge self.now.cavity.used.now (face_number face) j (face_number other)) }
    {
        other != face && self.shares_edge(face, j, other)
    }

    /// The place in the shell of the first face other than `face` that has its edge that lacks point
    /// `j`, if another has it.
    pub(crate) fn partner(&self, face: ShellFace, j: usize) -> Option<usize>
        requires { face.record < length self.now.cavity.used.now }
        ensures { unwrap_or result (length self.now.faces.now) ≡ nextdoor self.now.cavity.used.now (map face_number self.now.faces.now) (face_number face) j }
    {
        self.faces
            .iter()
            .position(|other| self.is_beside(face, j, *other))
    }
}
