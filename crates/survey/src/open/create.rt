ghost use Rattle.std.specs.Prelude.{◌≡◌, ◌≤◌, length};
ghost use Rattle.survey.specs.Creates.{Created, fit_points, fit_tets, with_corners};
ghost use Rattle.survey.specs.Tables.{SameLengths, SameTables, lent};
ghost use Rattle.survey.specs.Upheld.{Starts};

use super::Open;
use crate::corner::CORNERS;
use crate::counts::{Counts, MOST_POINTS, MOST_TETS};
use crate::record::PointRecord;
use crate::refusal::Refusal;
use crate::tables::Tables;
use geometry::measure::Measure;
use grading::grading::Grading;
use mesh::record::big_record;

/// The fewest point records: the corners and one site.
const FEWEST_POINTS: usize = 5;

/// The fewest tetrahedron records: the big one's.
const FEWEST_TETS: usize = 1;

/// Whether a point table has 5 to 1,024 records, and the reading table as many.
fn can_hold_points(points: usize, readings: usize) -> bool
    ensures { result ≡ fit_points points readings }
{
    (FEWEST_POINTS..=MOST_POINTS).contains(&points) && readings == points
}

/// Whether a tetrahedron table has 1 to 16,384 records.
fn can_hold_tets(tets: usize) -> bool
    ensures { result ≡ fit_tets tets }
{
    (FEWEST_TETS..=MOST_TETS).contains(&tets)
}

/// Writes the corners into the first four records.
fn write_corners(points: &mut [PointRecord])
    requires { 4 ≤ length points.old }
    ensures { points.new ≡ with_corners points.old }
{
    points[..4].copy_from_slice(&CORNERS);
}

impl<M: Measure + Drop, G: Grading + Drop> Open<M, G> {
    /// A survey without sites: the corners are written into the first four point records, and the big
    /// tetrahedron into the first of the others. All other records and the readings keep their contents.
    ///
    /// Refused are a point table of fewer than 5 or more than 1,024 records, or another number of
    /// readings, and then a tetrahedron table that is empty or has more than 16,384 records. A refusal
    /// changes nothing.
    pub fn create(
        measure: M,
        grading: G,
        tables: &mut Tables<'_, G::Reading>,
    ) -> Result<Open<M, G>, Refusal>
        ensures creates { Created measure grading (lent tables.old) (lent tables.new) result }
        ensures starts { Starts M.Measure.lifts G.Grading.admitted G.Grading.classed (lent tables.new) result }
        ensures same_tables { SameTables tables.old tables.new }
        ensures same_lengths { SameLengths tables.old tables.new }
    {
        if !can_hold_points(tables.points.len(), tables.readings.len()) {
            return Err(Refusal::PointTable);
        }
        if !can_hold_tets(tables.tets.len()) {
            return Err(Refusal::TetTable);
        }
        write_corners(tables.points);
        tables.tets[0] = big_record();
        let counts = Counts {
            points: CORNERS.len(),
            tets: 1,
            point_records: tables.points.len(),
            tet_records: tables.tets.len(),
        };
        Ok(Open {
            counts,
            measure,
            grading,
        })
    }
}
