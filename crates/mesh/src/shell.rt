ghost use Rattle.mesh.specs.Shells.{ShellSum};

/// What changes its sign with the direction of a face has the same sum over the shell of some tetrahedra
/// as over all their faces.
pub fn shell_sum_holds()
    ensures { ShellSum }
{}
