//! Points that would belong to no record after the add.
ghost use Rattle.std.specs.Prelude.{◌≡◌, ℕ, ◌<◌, ◌≤◌, false, ◌||◌, not, map, length, slice_index, slice_index_or, is_some, ◌==◌};
ghost use Rattle.std.specs.List.{list_any};
ghost use Rattle.mesh.specs.Records.{every};
ghost use Rattle.survey.specs.Cavity.{face_number, gone};
ghost use Rattle.survey.specs.Stay.{Failing, faces_have, kept_has, remains};

use crate::cavity::Cavity;
use crate::cavity::shell::Shell;
use crate::counts::MOST_POINTS;

/// Marks some points.
fn mark(marks: &mut [bool], points: &[u16])
    requires { (i : ℕ) → i < length points.now → slice_index points.now i < length marks.old }
    ensures { (q : ℕ) → slice_index_or marks.new q false ≡ (list_any (λ p. q == p) points.now || slice_index_or marks.old q false) }
{
    for point in points {
        marks[*point as usize] = true;
    }
}

/// The first of the first `count` marks that is not set.
// The count, and no shorter slice: what is known of the marks is told of all of them.
fn first_unmarked(marks: &[bool], count: usize) -> Option<u16>
    requires { (count ≤ length marks.now) × (count ≤ 1024) }
    ensures { Failing (gone marks.now) count result }
{
    marks[..count]
        .iter()
        .position(|marked| !*marked)
        .map(|q| q as u16)
}

impl Cavity<'_, '_> {
    /// Marks the points of the kept records.
    fn mark_kept(&self, marks: &mut [bool; MOST_POINTS])
        ensures { (q : ℕ) → slice_index_or marks.new q false ≡ (kept_has self.now.used.now self.now.dropped.now (length self.now.used.now) q || slice_index_or marks.old q false) }
    {
        for (tet, dropped) in self.used.iter().zip(self.dropped) {
            if !*dropped {
                mark(marks, &tet.points);
            }
        }
    }
}

impl Shell<'_, '_> {
    /// Marks the points of the shell faces.
    fn mark_faces(&self, marks: &mut [bool; MOST_POINTS])
        ensures { (q : ℕ) → slice_index_or marks.new q false ≡ (faces_have self.now.cavity.used.now (map face_number self.now.faces.now) q || slice_index_or marks.old q false) }
    {
        for face in self.faces {
            mark(marks, &face.points(self.cavity.used).numbers());
        }
    }

    /// A point below `points` that belongs neither to a kept record nor to a shell face, if there is
    /// one.
    pub(crate) fn vanishing_point(&self, points: usize) -> Option<u16>
        requires { points ≤ 1024 }
        ensures point { Failing (remains self.now.cavity.used.now self.now.cavity.dropped.now (map face_number self.now.faces.now)) points result }
        ensures test { is_some result ≡ not (every (remains self.now.cavity.used.now self.now.cavity.dropped.now (map face_number self.now.faces.now)) points) }
    {
        // Marks for the largest table: nothing here allocates.
        let mut marks = [false; MOST_POINTS];
        self.cavity.mark_kept(&mut marks);
        self.mark_faces(&mut marks);
        first_unmarked(&marks, points)
    }
}
