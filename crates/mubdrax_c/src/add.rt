ghost use Rattle.mubdrax_c.specs.Calls.{AddedFor};

use crate::answer::Answer;
use crate::counts::KeptCounts;
use crate::reading::ReadingRecord;
use mesh::record::TetRecord;
use survey::record::PointRecord;
use survey::site::{Place, Site};
use survey::tables::Tables;

/// Adds a site to the survey with these counts, and keeps the new ones. A refusal changes nothing.
// The tables and the coordinates come one by one, as C hands them over.
#[unsafe(no_mangle)]
pub extern "C" fn mubdrax_add(
    counts: &mut KeptCounts,
    points: &mut [PointRecord],
    readings: &mut [ReadingRecord],
    tets: &mut [TetRecord],
    x: u16,
    y: u16,
    z: u16,
    penalty: u32,
    reading: ReadingRecord,
) -> Answer
    ensures { AddedFor counts.old counts.new (record { points = points.old; readings = readings.old; tets = tets.old }) (record { points = points.new; readings = readings.new; tets = tets.new }) (record { x = x; y = y; z = z; penalty = penalty }) reading result }
{
    let Some(mut survey) = counts.resume() else {
        return Answer::no_survey();
    };
    let mut tables = Tables {
        points,
        readings,
        tets,
    };
    let place = Place { x, y, z };
    let outcome = survey.add(&mut tables, Site { place, penalty }, reading);
    *counts = KeptCounts::from(survey.counts());
    Answer::from(outcome)
}
