ghost use Rattle.algebra.specs.Signs.{SignLaws};

/// A product's sign comes from the signs of its factors, and the other way round.
pub fn sign_laws_hold()
    ensures { SignLaws }
{}
