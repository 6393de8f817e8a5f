//! Which used tetrahedra a new point conflicts with.
ghost use Rattle.std.specs.Prelude.{◌≡◌, length};
ghost use Rattle.geometry.specs.Points.{spot};
ghost use Rattle.mesh.specs.Spaces.{conflicting};
ghost use Rattle.survey.specs.Cavity.{Flagged};
ghost use Rattle.survey.specs.Conflicts.{some_flag};
ghost use Rattle.survey.specs.Views.{spots_in};
ghost use Rattle.survey.specs.Wholes.{shape, space};

use crate::tetrahedron::Tetrahedron;
use crate::whole::Whole;
use geometry::conflict::conflicts;
use geometry::measure::Measure;
use geometry::point::Point;

/// Asks the measure about every used tetrahedron. A flag tells for each whether the point conflicts
/// with it; the answer is whether any flag is set.
pub(crate) fn mark_conflicts<M: Measure>(
    measure: &M,
    whole: &Whole,
    site: &Point,
    flags: &mut [bool],
) -> bool
    requires { length flags.old ≡ length whole.now.tets.now }
    ensures flagged { Flagged (conflicting (spots_in whole.now.points) (M.Measure.lifts measure.now) (spot site.now)) whole.now.tets.now flags.new }
    ensures some { result ≡ some_flag flags.new (length whole.now.tets.now) }
{
    // By number: after a loop over the flags zipped with the records nothing would be known of the flags.
    for (k, tet) in whole.tets.iter().enumerate() {
        let points = whole.points;
        flags[k] = conflicts_with(measure, &Tetrahedron { points, tet }, site);
    }
    flags.contains(&true)
}

/// Whether a point conflicts with a tetrahedron.
fn conflicts_with<M: Measure>(measure: &M, tet: &Tetrahedron, site: &Point) -> bool
    ensures { result ≡ conflicting (space tet.now) (M.Measure.lifts measure.now) (spot site.now) (shape tet.now) }
{
    let [a, b, c, d] = tet.corners();
    conflicts(measure, &a, &b, &c, &d, site)
}
