//! The figures of a statement.

/// A line: how many tetrahedra of one class there are, and their Sides added up.
#[repr(C)]
#[derive(Clone, Copy, Debug, PartialEq, Eq, Default)]
pub struct Line {
    pub tetrahedra: u32,
    pub units: i64,
}

/// A line for each of the eight classes, and the margin, which is the Sides of the tetrahedra with a
/// corner added up.
#[repr(C)]
#[derive(Clone, Copy, Debug, PartialEq, Eq, Default)]
pub struct Statement {
    pub lines: [Line; 8],
    pub margin: i64,
}

mod post;
