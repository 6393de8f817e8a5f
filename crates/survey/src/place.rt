//! What a site's coordinates and penalty may be.
ghost use Rattle.std.specs.Prelude.{◌≡◌, Decides};
ghost use Rattle.geometry.specs.Limits.{Light};
ghost use Rattle.mesh.specs.Surveys.{OnGrid};
ghost use Rattle.survey.specs.Places.{light, on_grid, ranged};
ghost use Rattle.survey.specs.Sites.{place_spot};

use crate::site::Place;
use geometry::point::HEAVIEST;

/// The smallest coordinate of a site, in decimetres.
const NEAREST: u16 = 1;

/// The largest coordinate of a site, in decimetres.
const FARTHEST: u16 = 800;

/// Whether a coordinate is from 1 to 800.
fn in_range(coordinate: u16) -> bool
    ensures { result ≡ ranged coordinate }
{
    (NEAREST..=FARTHEST).contains(&coordinate)
}

/// Whether each coordinate is from 1 to 800.
pub(crate) fn is_on_grid(place: Place) -> bool
    ensures is { result ≡ on_grid place.x place.y place.z }
    ensures tells { Decides result (OnGrid (place_spot place)) }
{
    in_range(place.x) && in_range(place.y) && in_range(place.z)
}

/// Whether the penalty is at most 1,000,000.
pub(crate) fn is_light(penalty: u32) -> bool
    ensures is { result ≡ light penalty }
    ensures tells { Decides result (Light penalty) }
{
    penalty <= HEAVIEST
}
