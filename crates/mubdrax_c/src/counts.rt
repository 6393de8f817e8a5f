//! What a survey remembers, as the caller keeps it between calls.
ghost use Rattle.mubdrax_c.specs.Kept.{ResumedFrom, Stand};

use crate::reading::RecordAssay;
use geometry::plain::Plain;
use survey::counts::Counts;
use survey::open::Open;

/// The used records of each table and the table lengths at creation. They come from outside, and may be anything.
#[repr(C)]
#[derive(Clone, Copy)]
pub struct KeptCounts {
    pub points: usize,
    pub tets: usize,
    pub point_records: usize,
    pub tet_records: usize,
}

impl KeptCounts {
    /// The survey with these counts, if one can have them.
    pub(crate) fn resume(&self) -> Option<Open<Plain, RecordAssay>>
        ensures { ResumedFrom self.now result }
    {
        let counts = Counts::new(self.points, self.tets, self.point_records, self.tet_records)?;
        Some(Open::resume(counts, Plain, RecordAssay))
    }
}

/// The numbers of a survey's counts.
impl From<Counts> for KeptCounts {
    ghost from_gives = { λ counts kept. Stand kept counts };

    fn from(counts: Counts) -> KeptCounts {
        KeptCounts {
            points: counts.points(),
            tets: counts.tets(),
            point_records: counts.point_records(),
            tet_records: counts.tet_records(),
        }
    }
}
