//! What the caller's tables hold.
ghost use Rattle.std.specs.Prelude.{◌≡◌};
ghost use Rattle.survey.specs.Sites.{place_of};

use crate::site::{Place, Site};

/// One record of the point table: plain data that may hold anything.
///
/// The coordinates stand side by side, and not as a `Place`: C reads the same layout.
#[repr(C)]
#[derive(Clone, Copy, Debug, PartialEq, Eq, Default)]
pub struct PointRecord {
    pub x: u16,
    pub y: u16,
    pub z: u16,
    pub penalty: u32,
    pub mark: u16,
}

impl PointRecord {
    /// The place of the point.
    pub fn place(&self) -> Place
        ensures { result ≡ place_of self.now }
    {
        Place {
            x: self.x,
            y: self.y,
            z: self.z,
        }
    }
}

/// The record of a site, with mark 0.
impl From<Site> for PointRecord {
    ghost use Rattle.survey.specs.Sites.{site_spot};
    ghost use Rattle.survey.specs.Corners.{record_of};

    ghost from_gives = { λ site p. p ≡ record_of (site_spot site) };

    fn from(site: Site) -> PointRecord {
        PointRecord {
            x: site.place.x,
            y: site.place.y,
            z: site.place.z,
            penalty: site.penalty,
            mark: 0,
        }
    }
}
