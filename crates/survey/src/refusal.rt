//! Why a survey refuses a call.
ghost use Rattle.std.specs.Prelude.{◌≡◌, Some};
ghost use Rattle.survey.specs.Refusals.{message, number_of};

use std::error::Error;
use std::fmt;

/// The first question that was answered no. Each case has a number, by which the rules name it.
#[derive(Clone, Copy, Debug, PartialEq, Eq, Hash)]
pub enum Refusal {
    /// 1: not 5 to 1,024 point records, or not as many reading records.
    PointTable,
    /// 2: not 1 to 16,384 tetrahedron records.
    TetTable,
    /// 3: the tables are not whole.
    NotWhole,
    /// 4: a coordinate is not from 1 to 800.
    OffGrid,
    /// 5: the penalty is above 1,000,000.
    Penalty,
    /// 6: the grading does not admit the reading.
    Reading,
    /// 7: no point record is unused.
    PointsFull,
    /// 8: a site has this place already.
    PlaceTaken,
    /// 9: the site conflicts with no tetrahedron.
    NoConflict,
    /// 10: the tetrahedra and the shell faces do not fit the table.
    TetsFull,
    /// 11: a shell edge does not lie in exactly two shell faces.
    ShellOpen,
    /// 12: this point would belong to no tetrahedron.
    Vanishes(u16),
    /// 13: no tetrahedron owns the place.
    Unowned,
}

impl Refusal {
    /// The number by which the rules name the refusal.
    // By cases: one of them holds a point, so no discriminant can be cast.
    pub fn number(&self) -> u8
        ensures { result ≡ number_of self.now }
    {
        match self {
            Refusal::PointTable => 1,
            Refusal::TetTable => 2,
            Refusal::NotWhole => 3,
            Refusal::OffGrid => 4,
            Refusal::Penalty => 5,
            Refusal::Reading => 6,
            Refusal::PointsFull => 7,
            Refusal::PlaceTaken => 8,
            Refusal::NoConflict => 9,
            Refusal::TetsFull => 10,
            Refusal::ShellOpen => 11,
            Refusal::Vanishes(_) => 12,
            Refusal::Unowned => 13,
        }
    }
}

/// The question that was answered no, in words.
impl fmt::Display for Refusal {
    ghost output = { λ refusal. Some (message refusal) };

    fn fmt<W: fmt::Write>(&self, f: &mut fmt::Formatter<W>) -> fmt::Result {
        match self {
            Refusal::PointTable => write!(f, "not 5 to 1,024 point records with a reading each"),
            Refusal::TetTable => write!(f, "not 1 to 16,384 tetrahedron records"),
            Refusal::NotWhole => write!(f, "the tables are not whole"),
            Refusal::OffGrid => write!(f, "a coordinate is not from 1 to 800"),
            Refusal::Penalty => write!(f, "the penalty is above 1,000,000"),
            Refusal::Reading => write!(f, "the grading does not admit the reading"),
            Refusal::PointsFull => write!(f, "no point record is unused"),
            Refusal::PlaceTaken => write!(f, "a site has this place already"),
            Refusal::NoConflict => write!(f, "the site conflicts with no tetrahedron"),
            Refusal::TetsFull => write!(
                f,
                "the tetrahedra and the shell faces do not fit the table"
            ),
            Refusal::ShellOpen => write!(f, "a shell edge does not lie in exactly two shell faces"),
            Refusal::Vanishes(point) => write!(f, "point {point} would belong to no tetrahedron"),
            Refusal::Unowned => write!(f, "no tetrahedron owns the place"),
        }
    }
}

impl Error for Refusal {}
