//! A survey file, from its first word to the text that is printed.
ghost use Rattle.std.specs.Prelude.{◌≡◌, None, Err};
ghost use Rattle.survey.specs.Tables.{lent};
ghost use Rattle.report.specs.Report.{Comes, PrintedAs, Promised, ReportedAs, faulty, outcome_of, outside};

use crate::error::ReportError;
use crate::text::statement_text;
use geometry::plain::Plain;
use grading::assay::{Assay, Reading};
use mesh::record::big_record;
use std::alloc::Global;
use survey::open::Open;
use survey::promise::every_past_is_upheld;
use survey::record::PointRecord;
use survey::refusal::Refusal as Refused;
use survey::statement::Statement;
use survey::tables::Tables;
use words::fault::{Fault, Problem};
use words::feed::feed;
use words::refusal::Refusal;

/// How many point records, and as many readings, the program has: the corners and 252 sites.
const POINT_RECORDS: usize = 256;

/// How many tetrahedron records the program has.
const TET_RECORDS: usize = 2_048;

/// The text of a file's statement, or the one line that tells why the file is refused.
///
/// Reads the file into a survey with the plain measure and the assay, and seals and states it.
///
/// The survey is one of those of which the promise holds, whatever is asked of them.
pub fn report_on(heap: Global, file: &[u8]) -> Result<String, ReportError>
    ensures reported { ReportedAs file.now result }
    ensures promise { Promised }
{
    every_past_is_upheld::<Plain, Assay>();
    let mut points = vec![in heap; PointRecord::default(); POINT_RECORDS]?;
    let mut readings = vec![in heap; Reading::Missing; POINT_RECORDS]?;
    let mut tets = vec![in heap; big_record(); TET_RECORDS]?;
    let mut tables = Tables {
        points: points.as_mut_slice(),
        readings: readings.as_mut_slice(),
        tets: tets.as_mut_slice(),
    };
    let outcome = statement_of(file, &mut tables);
    printed(heap, &outcome)
}

/// The text of what came of a file.
fn printed(heap: Global, outcome: &Result<Statement, Refusal<'_>>) -> Result<String, ReportError>
    ensures { PrintedAs (outcome_of outcome.now) result }
{
    match outcome {
        Ok(statement) => Ok(statement_text(heap, statement)?),
        Err(refusal) => Err(ReportError::Refused(refusal.line(heap)?)),
    }
}

/// The statement of the survey that a file gives, over these tables.
fn statement_of<'a>(
    file: &'a [u8],
    tables: &mut Tables<'_, Reading>,
) -> Result<Statement, Refusal<'a>>
    ensures { Comes file.now (lent tables.old) (outcome_of result) }
{
    let mut survey = Open::create(Plain, Assay, tables).map_err(outside_of_words)?;
    feed(file, &mut survey, tables)?;
    let sealed = survey.seal();
    let mut statement = Statement::new();
    sealed
        .state(&tables.shared(), &mut statement)
        .map_err(outside_of_words)?;
    Ok(statement)
}

/// A refusal of the survey that no word of the file brought about. As for a file of the wrong length,
/// the word is 0, and there is no label.
fn outside_of_words(refusal: Refused) -> Refusal<'static>
    ensures { outcome_of (Err result) ≡ faulty (outside refusal) None }
{
    Refusal {
        fault: Fault {
            word: 0,
            problem: Problem::Refused(refusal),
        },
        label: None,
    }
}
