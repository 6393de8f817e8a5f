ghost use Rattle.std.specs.Prelude.{◌≡◌};
ghost use Rattle.survey.specs.Resumes.{Resumed};

use super::Open;
use crate::counts::Counts;
use geometry::measure::Measure;
use grading::grading::Grading;

impl<M: Measure + Drop, G: Grading + Drop> Open<M, G> {
    /// A survey with counts that the caller kept. What its past was, and what tables belong to it, nobody
    /// knows: its calls answer by the rules for any tables, and no soundness is claimed.
    pub fn resume(counts: Counts, measure: M, grading: G) -> Open<M, G>
        ensures { Resumed counts measure grading result }
    {
        Open {
            counts,
            measure,
            grading,
        }
    }

    /// The counts, for a caller who wants to keep them.
    pub fn counts(&self) -> Counts
        ensures { result ≡ self.now.counts }
    {
        self.counts
    }
}
