//! A face of the shell.
ghost use Rattle.std.specs.Prelude.{◌<◌};

use crate::face::Face;
use mesh::record::TetRecord;

/// A shell face: its record, and the slot of the point that it lacks.
// By number and with no reference to the record: 16,384 of them lie in fixed memory before there is a shell. So who reads
// the record asks that its number is one of the table's.
#[derive(Clone, Copy, PartialEq, Eq)]
pub(crate) struct ShellFace {
    pub(crate) record: u16,
    pub(crate) slot: u8,
    ghost in_record: { slot < 4 },
}

impl ShellFace {
    ghost use Rattle.std.specs.Prelude.{◌≡◌, length};
    ghost use Rattle.mesh.specs.Added.{face_of};
    ghost use Rattle.survey.specs.Cavity.{face_number};
    ghost use Rattle.survey.specs.Faces.{triple_of};

    /// The points of the face.
    pub(crate) fn points(self, used: &[TetRecord]) -> Face
        requires { self.record < length used.now }
        ensures { triple_of result ≡ face_of used.now (face_number self) }
    {
        Face::of(&used[self.record as usize], self.slot as usize)
    }
}
