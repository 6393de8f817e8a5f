//! Adding a site.
ghost use Rattle.std.specs.Prelude.{◌≡◌};
ghost use Rattle.mesh.specs.Surveys.{add as added};
ghost use Rattle.survey.specs.Adds.{AddsTo};
ghost use Rattle.survey.specs.Pasts.{add_told, opened};
ghost use Rattle.survey.specs.Sites.{site_spot};
ghost use Rattle.survey.specs.Tables.{SameLengths, SameTables, lent};
ghost use Rattle.survey.specs.Upheld.{Continues};

use super::Open;
use crate::cavity::write::write_records;
use crate::counts::{Counts, MOST_TETS};
use crate::examine::examine;
use crate::refusal::Refusal;
use crate::site::Site;
use crate::tables::Tables;
use geometry::measure::Measure;
use grading::grading::Grading;
use mesh::record::big_record;

impl<M: Measure + Drop, G: Grading + Drop> Open<M, G> {
    /// Adds a site and returns its number. Ten questions are asked in turn; the first no is the
    /// refusal, and then nothing has changed.
    ///
    /// The tetrahedra with which the site conflicts give way to their shell, joined to the site.
    pub fn add(
        &mut self,
        tables: &mut Tables<'_, G::Reading>,
        site: Site,
        reading: G::Reading,
    ) -> Result<u16, Refusal>
        ensures adds { AddsTo (M.Measure.lifts self.old.measure) (G.Grading.admitted self.old.grading) self.old.counts (lent tables.old) (site_spot site) reading self.new.counts (lent tables.new) result }
        ensures measure { self.new.measure ≡ self.old.measure }
        ensures grading { self.new.grading ≡ self.old.grading }
        ensures same_tables { SameTables tables.old tables.new }
        ensures same_lengths { SameLengths tables.old tables.new }
        ensures continues { Continues M.Measure.lifts G.Grading.admitted G.Grading.classed (opened self.old) (lent tables.old) (added (site_spot site) reading, add_told result) (opened self.new) (lent tables.new) }
    {
        let admitted = self.grading.admits(&reading);
        let counts = self.counts;
        // Room for the largest table: nothing here allocates.
        let mut room = [big_record(); MOST_TETS];
        let prepared = examine(
            &self.measure,
            &counts,
            &tables.shared(),
            site,
            admitted,
            &mut room,
        )?;
        let number = counts.points;
        write_records(tables.tets, prepared.records, prepared.end);
        tables.points[number] = site.into();
        tables.readings[number] = reading;
        // Each field by name: the checker takes no `..counts` where the struct has ghost fields.
        self.counts = Counts {
            points: number + 1,
            tets: prepared.records.len(),
            point_records: counts.point_records,
            tet_records: counts.tet_records,
        };
        Ok(number as u16)
    }
}
