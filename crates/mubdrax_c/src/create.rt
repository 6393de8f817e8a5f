ghost use Rattle.mubdrax_c.specs.Calls.{CreatedFor};

use crate::answer::Answer;
use crate::counts::KeptCounts;
use crate::reading::{ReadingRecord, RecordAssay};
use geometry::plain::Plain;
use mesh::record::TetRecord;
use survey::open::Open;
use survey::record::PointRecord;
use survey::tables::Tables;

/// Creates a survey without sites over the caller's tables, and writes its counts. A refusal changes nothing.
// The tables come one by one, as C hands them over.
#[unsafe(no_mangle)]
pub extern "C" fn mubdrax_create(
    counts: &mut KeptCounts,
    points: &mut [PointRecord],
    readings: &mut [ReadingRecord],
    tets: &mut [TetRecord],
) -> Answer
    ensures { CreatedFor counts.old counts.new (record { points = points.old; readings = readings.old; tets = tets.old }) (record { points = points.new; readings = readings.new; tets = tets.new }) result }
{
    let mut tables = Tables {
        points,
        readings,
        tets,
    };
    match Open::create(Plain, RecordAssay, &mut tables) {
        Ok(survey) => {
            *counts = KeptCounts::from(survey.counts());
            Answer::accepted(0)
        }
        Err(refusal) => Answer::from(refusal),
    }
}
