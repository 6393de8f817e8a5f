ghost use Rattle.std.specs.Prelude.{◌≡◌};
ghost use Rattle.mesh.specs.Records.{WholeDecided, big_record};

/// One record of the tetrahedron table: four point numbers in order, the number of the record across
/// each face (face i lacks point i), and a mark.
// Numbers and arrays as the rules fix them: the tables are the caller's, and cross to C as they are.
#[repr(C)]
#[derive(Clone, Copy, Debug, Default, PartialEq, Eq, Hash)]
pub struct TetRecord {
    pub points: [u16; 4],
    pub neighbours: [u16; 4],
    pub mark: u16,
}

/// Written as a neighbour where a face has no record across it.
// A number and no `Option`, as the format of the tables wants it.
pub const NONE: u16 = 65_535;

/// The record of the big tetrahedron, with which a table begins.
pub fn big_record() -> TetRecord
    ensures { result ≡ big_record }
{
    TetRecord {
        points: [0, 1, 2, 3],
        neighbours: [NONE; 4],
        mark: 0,
    }
}

/// The test of whole records tells exactly the whole ones.
pub fn wholeness_is_decided()
    ensures { WholeDecided }
{}
