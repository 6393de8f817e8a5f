//! How many records a survey uses, of how many.
ghost use Rattle.std.specs.Prelude.{◌≤◌};

/// The most point records that a survey can have.
pub(crate) const MOST_POINTS: usize = 1024;

/// The most tetrahedron records that a survey can have.
pub(crate) const MOST_TETS: usize = 16_384;

/// The used records of each table and the table lengths at creation.
#[derive(Clone, Copy, Debug, PartialEq, Eq, Hash)]
pub struct Counts {
    pub(crate) points: usize,
    pub(crate) tets: usize,
    pub(crate) point_records: usize,
    pub(crate) tet_records: usize,
    ghost points_fit: { (4 ≤ points) × (points ≤ point_records) × (point_records ≤ 1024) },
    ghost tets_fit: { (tets ≤ tet_records) × (tet_records ≤ 16384) },
}

mod numbers;
