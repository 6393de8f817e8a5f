ghost use Rattle.algebra.specs.Rings.{Sound};

/// Two expressions with one normal form have the same value, whatever their variables stand for.
pub fn normal_forms_decide()
    ensures { Sound }
{}
