//! What is promised of every survey, whatever was asked of it.
ghost use Rattle.survey.specs.Upheld.{EveryPast};

use geometry::measure::Measure;
use grading::grading::Grading;

/// Whatever calls a survey has answered over its tables, in whatever order, refused or not: the answers are such as
/// the rules allow, the tables hold the mesh that the rules tell, and that mesh is sound. For every measure and every
/// grading.
///
/// There is nothing to run: the contract is the promise, and each of the calls says how it adds to a past.
pub fn every_past_is_upheld<M: Measure, G: Grading>()
    ensures { EveryPast M.Measure.lifts G.Grading.admitted G.Grading.classed }
{}
