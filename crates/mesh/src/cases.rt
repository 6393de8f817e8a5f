ghost use Rattle.mesh.specs.Cases.{Cases};

/// Single surveys, worked out by the rules.
pub fn cases_hold()
    ensures { Cases }
{}
