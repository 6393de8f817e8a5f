//! What adding asks before it looks for the hole that the site makes.
ghost use Rattle.std.specs.Prelude.{length};
ghost use Rattle.survey.specs.Questions.{SiteAsked};
ghost use Rattle.survey.specs.Sites.{site_spot};

use crate::counts::Counts;
use crate::place::{is_light, is_on_grid};
use crate::refusal::Refusal;
use crate::search::is_taken;
use crate::site::{Place, Site};
use crate::tables::TablesRef;
use crate::whole::Whole;
use geometry::point::Point;

/// The first six questions of adding, in their order; and when every answer is yes, the used records and
/// the point of the site.
pub(crate) fn ask_site<'a, R>(
    counts: &Counts,
    tables: &TablesRef<'a, R>,
    site: Site,
    admitted: bool,
) -> Result<(Whole<'a>, Point), Refusal>
    ensures { SiteAsked counts.now tables.now.points.now (length tables.now.readings.now) tables.now.tets.now (site_spot site) admitted result }
{
    let whole = Whole::of(counts, tables)?;
    if !is_on_grid(site.place) {
        return Err(Refusal::OffGrid);
    }
    if !is_light(site.penalty) {
        return Err(Refusal::Penalty);
    }
    if !admitted {
        return Err(Refusal::Reading);
    }
    if counts.points >= counts.point_records {
        return Err(Refusal::PointsFull);
    }
    if is_taken(whole.points.records, site.place) {
        return Err(Refusal::PlaceTaken);
    }
    let Place { x, y, z } = site.place;
    Ok((whole, Point::new(x, y, z, site.penalty).unwrap()))
}
