ghost use Rattle.algebra.specs.Sizes.{SizeLaws};

/// How large a sum, a difference and a product can be, by the sizes of their parts.
pub fn size_laws_hold()
    ensures { SizeLaws }
{}
