ghost use Rattle.mubdrax_c.specs.Calls.{StatedFor};

use crate::answer::Answer;
use crate::counts::KeptCounts;
use crate::reading::ReadingRecord;
use mesh::record::TetRecord;
use survey::record::PointRecord;
use survey::statement::Statement;
use survey::tables::TablesRef;

/// Fills the statement of the survey with these counts. A refusal leaves it as it is.
// The tables come one by one, as C hands them over.
#[unsafe(no_mangle)]
pub extern "C" fn mubdrax_state(
    counts: &KeptCounts,
    points: &[PointRecord],
    readings: &[ReadingRecord],
    tets: &[TetRecord],
    statement: &mut Statement,
) -> Answer
    ensures { StatedFor counts.now (record { points = points.now; readings = readings.now; tets = tets.now }) statement.old statement.new result }
{
    let Some(survey) = counts.resume() else {
        return Answer::no_survey();
    };
    let tables = TablesRef {
        points,
        readings,
        tets,
    };
    Answer::from(survey.seal().state(&tables, statement))
}
