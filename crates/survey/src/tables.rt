//! The caller's tables, as they are lent to a call.
ghost use Rattle.std.specs.Prelude.{◌≡◌};
ghost use Rattle.survey.specs.Tables.{lent, shown};

use crate::record::PointRecord;
use mesh::record::TetRecord;

/// The three tables, lent to a call that may write them: creating and adding.
#[derive(Drop)]
pub struct Tables<'a, R> {
    /// The corners, and behind them the sites.
    pub points: &'a mut [PointRecord],
    /// A reading for each point record; those of the corners are not looked at. It stands apart from the record, whose
    /// layout is the same for readings of every kind.
    pub readings: &'a mut [R],
    /// The tetrahedra.
    pub tets: &'a mut [TetRecord],
}

/// The three tables, shown to a call that only reads them: locating and stating.
// Two structs with the same fields, as there are two kinds of reference: a call that reads asks for no more than shared ones.
#[derive(Clone, Copy)]
pub struct TablesRef<'a, R> {
    pub points: &'a [PointRecord],
    pub readings: &'a [R],
    pub tets: &'a [TetRecord],
}

impl<'a, R> Tables<'a, R> {
    /// The same tables, for a call that only reads them.
    pub fn shared(&self) -> TablesRef<'_, R>
        ensures { shown result ≡ lent self.now }
    {
        TablesRef {
            points: self.points,
            readings: self.readings,
            tets: self.tets,
        }
    }
}
