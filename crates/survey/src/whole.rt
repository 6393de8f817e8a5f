//! The used records of whole tables.
ghost use Rattle.std.specs.Prelude.{◌≤◌, length};
ghost use Rattle.survey.specs.Conflicts.{Named, Numbered};
ghost use Rattle.survey.specs.Views.{count};

use crate::counts::Counts;
use crate::points::Points;
use crate::refusal::Refusal;
use crate::tables::TablesRef;
use crate::tetrahedron::Tetrahedron;
use crate::wholeness::is_whole;
use mesh::record::TetRecord;

/// The used records of whole tables. The test of the tables makes them, so whoever is lent them knows
/// that the tetrahedra name points and neighbours among them, and that they are no more than a survey
/// can have.
#[derive(Clone, Copy)]
pub(crate) struct Whole<'a> {
    pub(crate) points: Points<'a>,
    pub(crate) tets: &'a [TetRecord],
    ghost points_fit: { count points ≤ 1024 },
    ghost tets_fit: { length tets.now ≤ 16384 },
    ghost under: { Numbered (count points) tets.now },
    ghost named: { Named tets.now },
}

impl<'a> Whole<'a> {
    ghost use Rattle.std.specs.Prelude.{◌≡◌, ◌<◌, is_ok};
    ghost use Rattle.mesh.specs.Records.{row};
    ghost use Rattle.survey.specs.Wholeness.{whole_tables};
    ghost use Rattle.survey.specs.Wholes.{WholeOf};

    /// The used records, or the refusal of tables that are not whole.
    // Counts and tables are two, here and below: the survey keeps the ones, and the caller lends the others.
    pub(crate) fn of<R>(counts: &Counts, tables: &TablesRef<'a, R>) -> Result<Whole<'a>, Refusal>
        ensures used { WholeOf counts.now tables.now.points.now (length tables.now.readings.now) tables.now.tets.now result }
        ensures test { is_ok result ≡ whole_tables counts.now tables.now.points.now (length tables.now.readings.now) tables.now.tets.now }
    {
        if !is_whole(counts, tables) {
            return Err(Refusal::NotWhole);
        }
        Ok(Whole {
            points: Points {
                records: &tables.points[..counts.points],
            },
            tets: &tables.tets[..counts.tets],
        })
    }

    /// Used tetrahedron `k`.
    pub(crate) fn tet(&self, k: usize) -> Tetrahedron<'a>
        requires { k < length self.now.tets.now }
        ensures points { result.points.records.now ≡ self.now.points.records.now }
        ensures named { result.tet.now ≡ row self.now.tets.now k }
    {
        Tetrahedron {
            points: self.points,
            tet: &self.tets[k],
        }
    }
}
