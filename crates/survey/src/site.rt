//! Where a site stands, and what it weighs.

/// Points below this number are the corners of the big tetrahedron, and the others are sites.
pub const FIRST_SITE: u16 = 4;

/// A place: its three coordinates in decimetres.
#[derive(Clone, Copy, Debug, PartialEq, Eq, Hash, Default)]
pub struct Place {
    pub x: u16,
    pub y: u16,
    pub z: u16,
}

/// A site as it is brought to a survey: its place, and its penalty in square decimetres.
#[derive(Clone, Copy, Debug, PartialEq, Eq, Hash, Default)]
pub struct Site {
    pub place: Place,
    pub penalty: u32,
}
