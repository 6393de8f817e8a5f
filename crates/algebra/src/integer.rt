ghost use Rattle.algebra.specs.Integers.{RingLaws};

/// Multiplication spreads over sums, may be regrouped, and takes a minus sign out.
pub fn ring_laws_hold()
    ensures { RingLaws }
{}
