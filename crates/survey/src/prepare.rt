//! The records that an add leaves, prepared before anything is written.
ghost use Rattle.std.specs.Prelude.{◌≡◌, ◌≤◌, length};
ghost use Rattle.geometry.specs.Points.{spot};
ghost use Rattle.mesh.specs.Spaces.{conflicting};
ghost use Rattle.survey.specs.Prepares.{PreparedBy};
ghost use Rattle.survey.specs.Views.{count, spots_in};

use crate::cavity::shell_face::ShellFace;
use crate::counts::MOST_TETS;
use crate::hole::plan_hole;
use crate::refusal::Refusal;
use crate::whole::Whole;
use geometry::measure::Measure;
use geometry::point::Point;
use mesh::record::TetRecord;

/// The records that are used after an add, and how many records of the table it writes or clears.
#[derive(Clone, Copy)]
pub(crate) struct Prepared<'a> {
    pub(crate) records: &'a [TetRecord],
    pub(crate) end: usize,
}

// Measure, records and site are three, here and in what is called: each is another's to lend.

/// Asks about the hole that a site makes and, when every answer is yes, writes the used records
/// after the add to the front of `out` and lends them. The site's number is the number of points so far.
pub(crate) fn prepare<'a, M: Measure>(
    measure: &M,
    whole: &Whole,
    room: usize,
    site: &Point,
    out: &'a mut [TetRecord; MOST_TETS],
) -> Result<Prepared<'a>, Refusal>
    requires { (length whole.now.tets.now ≤ room) × (room ≤ 16384) }
    ensures { PreparedBy (conflicting (spots_in whole.now.points) (M.Measure.lifts measure.now) (spot site.now)) whole.now.tets.now (count whole.now.points) room result }
{
    // Arrays for the largest table: nothing here allocates.
    let mut dropped = [false; MOST_TETS];
    let mut numbers = [0; MOST_TETS];
    let mut shell = [ShellFace { record: 0, slot: 0 }; MOST_TETS];
    let plan = plan_hole(
        measure,
        whole,
        room,
        site,
        &mut dropped[..whole.tets.len()],
        &mut numbers,
        &mut shell,
    )?;
    plan.fill_records(whole.points.len() as u16, out);
    let faces = plan.shell.faces.len();
    Ok(Prepared {
        records: &out[..plan.kept + faces],
        end: whole.tets.len() + faces,
    })
}
