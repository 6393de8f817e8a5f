//! Feeding a survey from a file.
ghost use Rattle.std.specs.Prelude.{◌≡◌, None};
ghost use Rattle.words.specs.Contents.{label_text};
ghost use Rattle.survey.specs.Tables.{SameLengths, SameTables, lent};
ghost use Rattle.words.specs.Feed.{Added, FedOn, FedWords, outcome, store};

use crate::fault::{Fault, Problem};
use crate::reader::Reader;
use crate::refusal::Refusal;
use crate::token::{Site, Token};
use geometry::measure::Measure;
use grading::grading::Grading;
use survey::open::Open;
use survey::tables::Tables;

/// Adds the sites of a file to a survey, each before the word after its reading is looked at, until
/// the file ends or there is a fault. Sites that were added before a fault stay added.
///
/// The tables are those of the survey, as for each call of it.
pub fn feed<'a, M: Measure + Drop, G: Grading + Drop>(
    file: &'a [u8],
    survey: &mut Open<M, G>,
    tables: &mut Tables<'_, G::Reading>,
) -> Result<(), Refusal<'a>>
    ensures fed { FedOn M.Measure.lifts G.Grading.admitted G.Grading.classed G.Grading.decoded file.now survey.old (lent tables.old) survey.new (lent tables.new) (outcome result) }
    ensures measure { survey.new.measure ≡ survey.old.measure }
    ensures grading { survey.new.grading ≡ survey.old.grading }
    ensures same_tables { SameTables tables.old tables.new }
    ensures same_lengths { SameLengths tables.old tables.new }
{
    let mut label = None;
    // No `map_err`: the checker learns nothing of a closure that puts the file's label into a value.
    match feed_words(file, survey, tables, &mut label) {
        Ok(()) => Ok(()),
        Err(fault) => Err(Refusal { fault, label }),
    }
}

/// Feeds the survey and keeps the last label that was accepted. It comes by a `&mut`, so that each
/// fault can go up by `?`.
fn feed_words<'a, M: Measure + Drop, G: Grading + Drop>(
    file: &'a [u8],
    survey: &mut Open<M, G>,
    tables: &mut Tables<'_, G::Reading>,
    label: &mut Option<&'a str>,
) -> Result<(), Fault>
    requires { label_text label.old ≡ None }
    ensures fed { FedWords (M.Measure.lifts survey.old.measure) (G.Grading.admitted survey.old.grading) (G.Grading.decoded survey.old.grading) file.now (store survey.old (lent tables.old)) (store survey.new (lent tables.new)) result (label_text label.new) }
    ensures measure { survey.new.measure ≡ survey.old.measure }
    ensures grading { survey.new.grading ≡ survey.old.grading }
    ensures same_tables { SameTables tables.old tables.new }
    ensures same_lengths { SameLengths tables.old tables.new }
{
    let mut reader = Reader::new(file);
    while let Some(token) = reader.next(survey.grading())? {
        *label = token.label_after(*label);
        if let Token::Site(site) = token {
            add_site(survey, tables, &site)?;
        }
    }
    Ok(())
}

/// Adds one site of the file; a refusal of the survey is a fault at the site's word.
fn add_site<M: Measure + Drop, G: Grading + Drop>(
    survey: &mut Open<M, G>,
    tables: &mut Tables<'_, G::Reading>,
    entry: &Site<G::Reading>,
) -> Result<u16, Fault>
    ensures added { Added (M.Measure.lifts survey.old.measure) (G.Grading.admitted survey.old.grading) (store survey.old (lent tables.old)) entry.now (store survey.new (lent tables.new)) result }
    ensures measure { survey.new.measure ≡ survey.old.measure }
    ensures grading { survey.new.grading ≡ survey.old.grading }
    ensures same_tables { SameTables tables.old tables.new }
    ensures same_lengths { SameLengths tables.old tables.new }
{
    survey
        .add(tables, entry.site, entry.reading)
        .map_err(|refusal| Problem::Refused(refusal).at(entry.word))
}
