//! Whether a site has a place already.
ghost use Rattle.std.specs.Prelude.{◌≡◌};
ghost use Rattle.survey.specs.Searches.{taken};

use crate::record::PointRecord;
use crate::site::{FIRST_SITE, Place};

/// Whether one of the sites among the used points has this place.
pub(crate) fn is_taken(points: &[PointRecord], place: Place) -> bool
    ensures { result ≡ taken points.now place.x place.y place.z }
{
    points
        .iter()
        .skip(FIRST_SITE as usize)
        .any(|point| point.place() == place)
}
