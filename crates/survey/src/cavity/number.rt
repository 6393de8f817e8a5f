//! Where the records go: numbers for the used records and how many there will be.
ghost use Rattle.std.specs.Prelude.{◌≡◌, ◌*◌, ◌≤◌, length};
ghost use Rattle.mesh.specs.Added.{rank};
ghost use Rattle.survey.specs.Cavity.{Noted, bare, left};

use crate::cavity::Cavity;

/// How many used records are kept, and how many shell faces there are.
#[derive(Clone, Copy)]
pub(crate) struct Totals {
    pub(crate) kept: usize,
    pub(crate) shell: usize,
}

impl Cavity<'_, '_> {
    /// Notes a number for each used record: for a kept one how many kept ones precede it, for a
    /// dropped one how many shell faces precede its own. There may be up to four shell faces for
    /// each record.
    pub(crate) fn number(&self, numbers: &mut [u16]) -> Totals
        requires { length self.now.used.now ≤ length numbers.old }
        ensures kept { result.kept ≡ rank (left self.now.dropped.now) (length self.now.used.now) }
        ensures shell { result.shell ≡ rank (bare self.now.used.now self.now.dropped.now) (4 * length self.now.used.now) }
        ensures noted { Noted self.now.used.now self.now.dropped.now (length self.now.used.now) numbers.new }
    {
        let mut kept = 0;
        let mut shell = 0;
        // By number: after a loop over the numbers zipped with the flags nothing would be known of the numbers.
        for (k, dropped) in self.dropped.iter().enumerate() {
            if *dropped {
                numbers[k] = shell as u16;
                shell += self.exposed_before(k, 4);
            } else {
                numbers[k] = kept as u16;
                kept += 1;
            }
        }
        Totals { kept, shell }
    }
}
