ghost use Rattle.mubdrax_c.specs.Calls.{LocatedFor};

use crate::answer::Answer;
use crate::counts::KeptCounts;
use crate::reading::ReadingRecord;
use mesh::record::TetRecord;
use survey::record::PointRecord;
use survey::site::Place;
use survey::tables::TablesRef;

/// The lowest used record that owns a place, in the survey with these counts.
// The tables and the coordinates come one by one, as C hands them over.
#[unsafe(no_mangle)]
pub extern "C" fn mubdrax_locate(
    counts: &KeptCounts,
    points: &[PointRecord],
    readings: &[ReadingRecord],
    tets: &[TetRecord],
    x: u16,
    y: u16,
    z: u16,
) -> Answer
    ensures { LocatedFor counts.now (record { points = points.now; readings = readings.now; tets = tets.now }) x y z result }
{
    let Some(survey) = counts.resume() else {
        return Answer::no_survey();
    };
    let tables = TablesRef {
        points,
        readings,
        tets,
    };
    Answer::from(survey.seal().locate(&tables, Place { x, y, z }))
}
