ghost use Rattle.mesh.specs.Surveys.{locate as locating};
ghost use Rattle.survey.specs.Locates.{Located, located_answer};
ghost use Rattle.survey.specs.Pasts.{closed};
ghost use Rattle.survey.specs.Tables.{shown};
ghost use Rattle.survey.specs.Upheld.{Continues};

use super::Sealed;
use crate::owner::{first_owner, steps_from};
use crate::place::is_on_grid;
use crate::refusal::Refusal;
use crate::site::Place;
use crate::tables::TablesRef;
use crate::whole::Whole;
use geometry::measure::Measure;
use grading::grading::Grading;

impl<M: Measure + Drop, G: Grading + Drop> Sealed<M, G> {
    /// The lowest used record that owns a place.
    ///
    /// Tables that are not whole are refused, then a coordinate that is not from 1 to 800, and then a
    /// place that no used record owns.
    pub fn locate(&self, tables: &TablesRef<'_, G::Reading>, place: Place) -> Result<u16, Refusal>
        ensures locates { Located self.now.counts (shown tables.now) place.x place.y place.z result }
        ensures continues { Continues M.Measure.lifts G.Grading.admitted G.Grading.classed (closed self.now) (shown tables.now) (locating place.x place.y place.z, located_answer result) (closed self.now) (shown tables.now) }
    {
        let whole = Whole::of(&self.counts, tables)?;
        if !is_on_grid(place) {
            return Err(Refusal::OffGrid);
        }
        first_owner(&whole, &steps_from(place)).ok_or(Refusal::Unowned)
    }
}
