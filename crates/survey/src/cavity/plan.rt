//! What each record becomes: a kept one with its neighbours renumbered, a new one over a shell face.
ghost use Rattle.std.specs.Prelude.{◌≡◌, ◌+◌, ◌<◌, ◌≤◌, cond, length, slice_index, ◌==◌};
ghost use Rattle.mesh.specs.Added.{rank};
ghost use Rattle.mesh.specs.Records.{fours};
ghost use Rattle.survey.specs.Cavity.{Noted, left};

use crate::cavity::shell::Shell;
use crate::cavity::shell_face::ShellFace;
use crate::face::Face;
use mesh::record::{NONE, TetRecord};

/// What is known of an add that is to be made: the used records, which of them are dropped, the
/// shell, the numbers of the records and how many of them are kept.
#[derive(Clone, Copy)]
pub(crate) struct Plan<'t, 's> {
    pub(crate) shell: Shell<'t, 's>,
    pub(crate) numbers: &'s [u16],
    pub(crate) kept: usize,
    ghost long: { length shell.cavity.used.now ≤ length numbers.now },
    ghost noted: { Noted shell.cavity.used.now shell.cavity.dropped.now (length shell.cavity.used.now) numbers.now },
    ghost total: { kept ≡ rank (left shell.cavity.dropped.now) (length shell.cavity.used.now) },
    ghost room: { kept + length shell.faces.now ≤ 16384 },
}

impl Plan<'_, '_> {
    ghost use Rattle.mesh.specs.Added.{kept_record, new_record};
    ghost use Rattle.mesh.specs.Added.{renumbered as renamed};
    ghost use Rattle.mesh.specs.Records.{face_at, neighbour, row};
    ghost use Rattle.survey.specs.Cavity.{face_number};
    ghost use Rattle.survey.specs.Plans.{ForConflict, new_neighbour, records};

    /// What is written across face `slot` of used record `k`: the new number of the record that was
    /// there, or of the one that takes the place of a dropped one.
    fn renumbered(&self, k: usize, slot: usize) -> u16
        requires { (k < length (records self.now)) × (slot < 4) }
        ensures { ForConflict self.now (λ conflict. result ≡ renamed conflict (records self.now) (face_at (row (records self.now) k) slot) (neighbour (row (records self.now) k) slot)) }
    {
        let cavity = &self.shell.cavity;
        let across = cavity.used[k].neighbours[slot];
        if across == NONE {
            return NONE;
        }
        let other = across as usize;
        if !cavity.dropped[other] {
            return self.numbers[other];
        }
        let face = Face::of(&cavity.used[k], slot);
        let before = cavity.exposed_before(other, face.opposite(&cavity.used[other]));
        (self.kept + self.numbers[other] as usize + before) as u16
    }

    /// What used record `k` becomes if it is kept.
    pub(crate) fn kept_record(&self, k: usize) -> TetRecord
        requires { k < length (records self.now) }
        ensures { ForConflict self.now (λ conflict. result ≡ kept_record conflict (records self.now) k) }
    {
        TetRecord {
            points: self.shell.cavity.used[k].points,
            // Four calls and no `array::from_fn`: what a call ensures of every test of conflict is
            // not known of the closure's.
            neighbours: [
                self.renumbered(k, 0),
                self.renumbered(k, 1),
                self.renumbered(k, 2),
                self.renumbered(k, 3),
            ],
            mark: 0,
        }
    }

    /// Neighbour `j` of the new record over a shell face: at the face itself what was across it, and
    /// elsewhere the new record over the same shell edge.
    fn new_neighbour(&self, face: ShellFace, j: usize) -> u16
        requires { face.record < length (records self.now) }
        ensures { ForConflict self.now (λ conflict. result ≡ new_neighbour conflict (records self.now) (face_number face) j) }
    {
        if j == face.slot as usize {
            return self.renumbered(face.record as usize, j);
        }
        let shell = &self.shell;
        // In a closed shell there is a partner; the number behind the faces is what the definition gives without one.
        let beside = shell.partner(face, j).unwrap_or(shell.faces.len());
        (self.kept + beside) as u16
    }

    /// The new record over a shell face: the dropped one with the site in place of the point that
    /// the face lacks.
    pub(crate) fn new_record(&self, face: ShellFace, site: u16) -> TetRecord
        requires { face.record < length (records self.now) }
        ensures { ForConflict self.now (λ conflict. result ≡ new_record conflict (records self.now) site (face_number face)) }
    {
        let old = &self.shell.cavity.used[face.record as usize];
        TetRecord {
            points: replaced(old.points, face.slot as usize, site),
            // Four calls, as in `kept_record`.
            neighbours: [
                self.new_neighbour(face, 0),
                self.new_neighbour(face, 1),
                self.new_neighbour(face, 2),
                self.new_neighbour(face, 3),
            ],
            mark: 0,
        }
    }
}

/// The points with the site in place of the one at `slot`.
fn replaced(points: [u16; 4], slot: usize, site: u16) -> [u16; 4]
    requires { slot < 4 }
    ensures { result ≡ fours (λ j. cond (j == slot) site (slice_index points j)) }
{
    let mut replaced = points;
    replaced[slot] = site;
    replaced
}
