//! Point records that are known to give points.
ghost use Rattle.survey.specs.Tables.{AllInLimits};

use crate::record::PointRecord;
use geometry::point::Point;

/// Point records each of which gives a point. The limits stand in the type, so whoever is lent the
/// points need not ask about them again.
#[derive(Clone, Copy)]
pub(crate) struct Points<'a> {
    pub(crate) records: &'a [PointRecord],
    ghost within: { AllInLimits records.now },
}

impl<'a> Points<'a> {
    ghost use Rattle.std.specs.Prelude.{◌≡◌, ◌<◌};
    ghost use Rattle.geometry.specs.Points.{spot};
    ghost use Rattle.mesh.specs.Spaces.{numbered};
    ghost use Rattle.survey.specs.Views.{count, spots_in};

    /// How many points there are.
    pub(crate) fn len(&self) -> usize
        ensures { result ≡ count self.now }
    {
        self.records.len()
    }

    /// The point of a number.
    // No `TryFrom` of a record: here it is known that the record gives a point.
    pub(crate) fn point(&self, number: u16) -> Point
        requires { number < count self.now }
        ensures { spot result ≡ numbered (spots_in self.now) number }
    {
        let record = &self.records[number as usize];
        Point::new(record.x, record.y, record.z, record.penalty).unwrap()
    }
}
