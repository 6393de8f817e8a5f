//! The shell of the hole: faces of dropped records across which nothing is dropped.
ghost use Rattle.std.specs.Prelude.{◌≡◌, ◌*◌, ◌≤◌, map, length, take};
ghost use Rattle.mesh.specs.Added.{rank};
ghost use Rattle.survey.specs.Cavity.{Placed, bare, bare_faces, face_number};

use crate::cavity::Cavity;
use crate::cavity::shell_face::ShellFace;

/// A cavity with its shell faces, by record and then by slot.
#[derive(Clone, Copy)]
pub(crate) struct Shell<'t, 's> {
    pub(crate) cavity: Cavity<'t, 's>,
    pub(crate) faces: &'s [ShellFace],
    ghost placed: { Placed cavity.used.now faces.now },
    ghost complete: { map face_number faces.now ≡ bare_faces cavity.used.now cavity.dropped.now },
}

impl Cavity<'_, '_> {
    /// Writes the shell faces, by record and then by slot, to the front of `room` and returns how
    /// many there are.
    pub(crate) fn collect_shell(&self, room: &mut [ShellFace]) -> usize
        requires { rank (bare self.now.used.now self.now.dropped.now) (4 * length self.now.used.now) ≤ length room.old }
        ensures count { result ≡ rank (bare self.now.used.now self.now.dropped.now) (4 * length self.now.used.now) }
        ensures placed { Placed self.now.used.now (take result room.new) }
        ensures faces { map face_number (take result room.new) ≡ bare_faces self.now.used.now self.now.dropped.now }
    {
        // By number, as that is what a face is made of; the faces go to fixed memory, so there is no
        // list to collect them in.
        let mut count = 0;
        for k in 0..self.used.len() {
            for slot in 0..4 {
                if self.is_exposed(k, slot as usize) {
                    room[count] = ShellFace {
                        record: k as u16,
                        slot,
                    };
                    count += 1;
                }
            }
        }
        count
    }
}
