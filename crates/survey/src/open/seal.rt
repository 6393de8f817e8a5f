ghost use Rattle.mesh.specs.Surveys.{seal, sealed};
ghost use Rattle.survey.specs.Pasts.{closed, opened};
ghost use Rattle.survey.specs.Seals.{SealedAs};
ghost use Rattle.survey.specs.Tables.{Lent};
ghost use Rattle.survey.specs.Upheld.{Continues};

use super::Open;
use crate::sealed::Sealed;
use geometry::measure::Measure;
use grading::grading::Grading;

impl<M: Measure + Drop, G: Grading + Drop> Open<M, G> {
    /// The survey with the same counts, measure and grading, closed to further sites. It is never refused.
    pub fn seal(self) -> Sealed<M, G>
        ensures seals { SealedAs self result }
        ensures continues { (tables : Lent G.Reading) → Continues M.Measure.lifts G.Grading.admitted G.Grading.classed (opened self) tables (seal, sealed) (closed result) tables }
    {
        let Open {
            counts,
            measure,
            grading,
        } = self;
        Sealed {
            counts,
            measure,
            grading,
        }
    }
}
