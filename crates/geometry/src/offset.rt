ghost use Rattle.geometry.specs.Limits.{Within};

/// Three numbers, none of them further than `LIMIT` from zero.
#[derive(Clone, Copy, Debug)]
pub struct Row<const LIMIT: u64> {
    x: i64,
    y: i64,
    z: i64,
    ghost within: { Within LIMIT x × Within LIMIT y × Within LIMIT z },
}

/// The way from one point to another: a row of the determinant that Side is.
pub type Offset = Row<2560>;

/// The minors below a row of the determinant, each by the column that it leaves out.
pub type Minors = Row<13_107_200>;

pub mod rows;
