ghost use Rattle.std.specs.Prelude.{◌≡◌, ◌<◌, ◌≤◌, false, length, Some};
ghost use Rattle.mesh.specs.Orientations.{Under};
ghost use Rattle.mesh.specs.Records.{mesh_of, tet_of};
ghost use Rattle.mesh.specs.Spaces.{side_of};
ghost use Rattle.mesh.specs.Statements.{cornered};
ghost use Rattle.mesh.specs.Surveys.{state};
ghost use Rattle.survey.specs.Pasts.{closed, state_told};
ghost use Rattle.survey.specs.Posting.{RoomyStatement, Sized};
ghost use Rattle.survey.specs.States.{Stated, class_at, entered, figures, meaning};
ghost use Rattle.survey.specs.Tables.{shown};
ghost use Rattle.survey.specs.Upheld.{Continues};
ghost use Rattle.survey.specs.Views.{count, spots_in};
ghost use Rattle.survey.specs.Wholes.{shape, space};

use super::Sealed;
use crate::refusal::Refusal;
use crate::site::FIRST_SITE;
use crate::statement::Statement;
use crate::tables::TablesRef;
use crate::tetrahedron::Tetrahedron;
use crate::whole::Whole;
use geometry::measure::Measure;
use grading::grading::Grading;
use mesh::record::TetRecord;

/// Whether one of the record's points is a corner.
fn has_corner(tet: &TetRecord) -> bool
    ensures { result ≡ cornered (tet_of tet.now) }
{
    tet.points.iter().any(|point| *point < FIRST_SITE)
}

/// The class of a record without corners, by the readings of its points.
fn class_of<G: Grading>(grading: &G, readings: &[G::Reading], tet: &TetRecord) -> u8
    requires under { Under (length readings.now) (tet_of tet.now) }
    requires sites { cornered (tet_of tet.now) ≡ false }
    ensures is { class_at (meaning G.Grading.admitted G.Grading.classed grading.now) readings.now (tet_of tet.now) ≡ Some result }
    ensures eight { result < 8 }
{
    let [a, b, c, d] = tet.points;
    grading.class(
        &readings[a as usize],
        &readings[b as usize],
        &readings[c as usize],
        &readings[d as usize],
    )
}

/// Enters one tetrahedron: its Side goes to the margin where it has a corner, and otherwise to the line of
/// its class.
fn enter<G: Grading>(
    grading: &G,
    readings: &[G::Reading],
    tet: &Tetrahedron,
    statement: &mut Statement,
)
    requires enough { count tet.now.points ≤ length readings.now }
    requires room { RoomyStatement statement.old }
    ensures is { statement.new ≡ entered (meaning G.Grading.admitted G.Grading.classed grading.now) (space tet.now) readings.now (shape tet.now) statement.old }
    ensures size { Sized (side_of (space tet.now) (shape tet.now)) }
{
    let units = tet.side();
    if has_corner(tet.tet) {
        statement.post_to_margin(units);
    } else {
        statement.post(class_of(grading, readings, tet.tet) as usize, units);
    }
}

/// The figures of the used tetrahedra.
fn tally<G: Grading>(grading: &G, readings: &[G::Reading], whole: &Whole) -> Statement
    requires { count whole.now.points ≤ length readings.now }
    ensures { result ≡ figures (meaning G.Grading.admitted G.Grading.classed grading.now) (spots_in whole.now.points) readings.now (mesh_of whole.now.tets.now) }
{
    let mut statement = Statement::new();
    for tet in whole.tets {
        let points = whole.points;
        enter(
            grading,
            readings,
            &Tetrahedron { points, tet },
            &mut statement,
        );
    }
    statement
}

impl<M: Measure + Drop, G: Grading + Drop> Sealed<M, G> {
    /// Fills the statement: line `k` has the number and the summed Side of the tetrahedra without corners
    /// whose class is `k`, and the margin the summed Side of those with a corner. What stood there is
    /// replaced.
    ///
    /// Tables that are not whole are refused, and leave the statement as it is.
    pub fn state(
        &self,
        tables: &TablesRef<'_, G::Reading>,
        statement: &mut Statement,
    ) -> Result<(), Refusal>
        ensures states { Stated (meaning G.Grading.admitted G.Grading.classed self.now.grading) self.now.counts (shown tables.now) statement.old statement.new result }
        ensures continues { Continues M.Measure.lifts G.Grading.admitted G.Grading.classed (closed self.now) (shown tables.now) (state, state_told statement.new result) (closed self.now) (shown tables.now) }
    {
        let whole = Whole::of(&self.counts, tables)?;
        *statement = tally(&self.grading, tables.readings, &whole);
        Ok(())
    }
}
