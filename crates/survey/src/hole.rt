//! What adding asks of the hole that a site makes.
ghost use Rattle.std.specs.Prelude.{◌≡◌, ◌≤◌, length};
ghost use Rattle.geometry.specs.Points.{spot};
ghost use Rattle.mesh.specs.Spaces.{conflicting};
ghost use Rattle.survey.specs.Holes.{HoleAsked};
ghost use Rattle.survey.specs.Views.{count, spots_in};

use crate::cavity::Cavity;
use crate::cavity::plan::Plan;
use crate::cavity::shell::Shell;
use crate::cavity::shell_face::ShellFace;
use crate::conflict::mark_conflicts;
use crate::refusal::Refusal;
use crate::whole::Whole;
use geometry::measure::Measure;
use geometry::point::Point;

/// Questions 7 to 10 of adding, in their order; and when every answer is yes, the plan of the add,
/// over the flags, the numbers and the shell faces that are written to the lent arrays.
// Three arrays and no struct of them: the checker does not lend one of its fields on while another is lent. Flags and
// numbers stand apart, since the flags are told before any number is.
pub(crate) fn plan_hole<'t, 's, M: Measure>(
    measure: &M,
    whole: &Whole<'t>,
    room: usize,
    site: &Point,
    dropped: &'s mut [bool],
    numbers: &'s mut [u16],
    shell: &'s mut [ShellFace],
) -> Result<Plan<'t, 's>, Refusal>
    requires room { (length whole.now.tets.now ≤ room) × (room ≤ 16384) × (room ≤ length shell.old) }
    requires arrays { (length dropped.old ≡ length whole.now.tets.now) × (length whole.now.tets.now ≤ length numbers.old) }
    ensures { HoleAsked (conflicting (spots_in whole.now.points) (M.Measure.lifts measure.now) (spot site.now)) whole.now.tets.now (count whole.now.points) room result }
{
    if !mark_conflicts(measure, whole, site, dropped) {
        return Err(Refusal::NoConflict);
    }
    let used = whole.tets;
    let cavity = Cavity { used, dropped };
    let totals = cavity.number(numbers);
    if used.len() + totals.shell > room {
        return Err(Refusal::TetsFull);
    }
    let count = cavity.collect_shell(shell);
    let faces = &shell[..count];
    let shell = Shell { cavity, faces };
    if !shell.edges_closed() {
        return Err(Refusal::ShellOpen);
    }
    match shell.vanishing_point(whole.points.len()) {
        Some(point) => Err(Refusal::Vanishes(point)),
        None => Ok(Plan {
            shell,
            numbers,
            kept: totals.kept,
        }),
    }
}
