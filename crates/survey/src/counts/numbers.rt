ghost use Rattle.std.specs.Prelude.{◌≡◌};
ghost use Rattle.survey.specs.Resumes.{CountsOf, possible};

use super::{Counts, MOST_POINTS, MOST_TETS};

/// Whether a survey can have these counts.
fn are_possible(points: usize, tets: usize, point_records: usize, tet_records: usize) -> bool
    ensures { result ≡ possible points tets point_records tet_records }
{
    (4..=point_records).contains(&points)
        && point_records <= MOST_POINTS
        && tets <= tet_records
        && tet_records <= MOST_TETS
}

impl Counts {
    /// The counts with these numbers, if a survey can have them: from where a caller kept them.
    pub fn new(
        points: usize,
        tets: usize,
        point_records: usize,
        tet_records: usize,
    ) -> Option<Counts>
        ensures { CountsOf points tets point_records tet_records result }
    {
        if !are_possible(points, tets, point_records, tet_records) {
            return None;
        }
        Some(Counts {
            points,
            tets,
            point_records,
            tet_records,
        })
    }

    /// How many point records are used.
    pub fn points(&self) -> usize
        ensures { result ≡ self.now.points }
    {
        self.points
    }

    /// How many tetrahedron records are used.
    pub fn tets(&self) -> usize
        ensures { result ≡ self.now.tets }
    {
        self.tets
    }

    /// How many point records there were at creation.
    pub fn point_records(&self) -> usize
        ensures { result ≡ self.now.point_records }
    {
        self.point_records
    }

    /// How many tetrahedron records there were at creation.
    pub fn tet_records(&self) -> usize
        ensures { result ≡ self.now.tet_records }
    {
        self.tet_records
    }
}
