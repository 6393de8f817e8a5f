//! The used records after the add: the kept ones, moved together, and one over each shell face.
ghost use Rattle.std.specs.Prelude.{◌≡◌, ◌+◌, ◌≤◌, ◌++◌, map, length, take};
ghost use Rattle.mesh.specs.Added.{kept_record, kept_rows, new_record, records_after, shell_faces};
ghost use Rattle.survey.specs.Plans.{ForConflict, records};

use crate::cavity::plan::Plan;
use mesh::record::TetRecord;

impl Plan<'_, '_> {
    /// Writes what the kept records become to the front of `out`, in their old order.
    fn fill_kept(&self, out: &mut [TetRecord])
        requires { self.now.kept ≤ length out.old }
        ensures { ForConflict self.now (λ conflict. take self.now.kept out.new ≡ map (kept_record conflict (records self.now)) (kept_rows conflict (records self.now))) }
    {
        // By number: after a loop over the records zipped with the kept ones nothing would be known of the records.
        for (k, dropped) in self.shell.cavity.dropped.iter().enumerate() {
            let kept = !*dropped;
            if kept {
                out[self.numbers[k] as usize] = self.kept_record(k);
            }
        }
    }

    /// Writes the new records over the shell faces to `out`, behind the kept ones.
    fn fill_new(&self, site: u16, out: &mut [TetRecord])
        requires { self.now.kept + length self.now.shell.faces.now ≤ length out.old }
        ensures { ForConflict self.now (λ conflict. take (self.now.kept + length self.now.shell.faces.now) out.new ≡ take self.now.kept out.old ++ map (new_record conflict (records self.now) site) (shell_faces conflict (records self.now))) }
    {
        // By number: after a loop over the records zipped with the faces nothing would be known of the records.
        for (m, face) in self.shell.faces.iter().enumerate() {
            out[self.kept + m] = self.new_record(*face, site);
        }
    }

    /// Writes the used records after the add to the front of `out`.
    pub(crate) fn fill_records(&self, site: u16, out: &mut [TetRecord])
        requires { self.now.kept + length self.now.shell.faces.now ≤ length out.old }
        ensures { ForConflict self.now (λ conflict. take (self.now.kept + length self.now.shell.faces.now) out.new ≡ records_after conflict (records self.now) site) }
    {
        self.fill_kept(out);
        self.fill_new(site, out);
    }
}
