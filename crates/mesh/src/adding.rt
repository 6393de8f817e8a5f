ghost use Rattle.mesh.specs.Added.{AddLaws};

/// The records that an add leaves read as the mesh after it, and are whole again.
pub fn added_records_are_whole()
    ensures { AddLaws }
{}
