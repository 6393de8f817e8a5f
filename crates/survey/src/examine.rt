//! The ten questions of adding, asked on shared borrows.
ghost use Rattle.std.specs.Prelude.{◌≡◌, length};
ghost use Rattle.survey.specs.Adds.{Examined};
ghost use Rattle.survey.specs.Sites.{site_spot};
ghost use Rattle.survey.specs.Tables.{shown};

use crate::counts::{Counts, MOST_TETS};
use crate::prepare::{Prepared, prepare};
use crate::question::ask_site;
use crate::refusal::Refusal;
use crate::site::Site;
use crate::tables::TablesRef;
use geometry::measure::Measure;
use mesh::record::TetRecord;

/// Asks the ten questions of adding in their order. When every answer is yes, the used records after
/// the add stand in `room`, and are lent.
pub(crate) fn examine<'a, M: Measure, R>(
    measure: &M,
    counts: &Counts,
    tables: &TablesRef<'_, R>,
    site: Site,
    admitted: bool,
    room: &'a mut [TetRecord; MOST_TETS],
) -> Result<Prepared<'a>, Refusal>
    ensures { Examined (M.Measure.lifts measure.now) counts.now (shown tables.now) (site_spot site) admitted result }
{
    let (whole, site) = ask_site(counts, tables, site, admitted)?;
    prepare(measure, &whole, counts.tet_records, &site, room)
}
