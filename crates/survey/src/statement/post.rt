ghost use Rattle.std.specs.Prelude.{◌≡◌, ◌<◌, slice_index_or};
ghost use Rattle.survey.specs.Posting.{Roomy, Sized, SizedSum, blank_line, blank_statement, post_margin, post_to, posted};

use super::{Line, Statement};

// That a Side is one of a tetrahedron is a bound of one number: a type for it would be opened again at each sum.

impl Line {
    /// Counts one tetrahedron with this Side.
    fn post(&mut self, units: i64)
        requires { Roomy self.old × Sized units }
        ensures { self.new ≡ posted self.old units }
    {
        self.tetrahedra += 1;
        self.units += units;
    }
}

impl Statement {
    /// A statement of no tetrahedra, for a survey to fill.
    pub fn new() -> Statement
        ensures { result ≡ blank_statement }
    {
        Statement::default()
    }

    /// Posts a tetrahedron to the line of its class. The other seven lines keep their figures.
    pub(crate) fn post(&mut self, class: usize, units: i64)
        requires { (class < 8) × Roomy (slice_index_or self.old.lines class blank_line) × Sized units }
        ensures { self.new ≡ post_to class units self.old }
    {
        self.lines[class].post(units);
    }

    /// Adds a tetrahedron's Side to the margin.
    pub(crate) fn post_to_margin(&mut self, units: i64)
        requires { SizedSum self.old.margin × Sized units }
        ensures { self.new ≡ post_margin units self.old }
    {
        self.margin += units;
    }
}
