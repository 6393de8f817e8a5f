ghost use Rattle.mesh.specs.Soundness.{Law};

/// Whatever calls a survey has answered by the rules, its mesh is sound, its statements add up, and its
/// refusals changed nothing: under every lift, and for readings of every kind under every grading.
pub fn any_past_is_sound<R>()
    ensures { Law R }
{}
