ghost use Rattle.algebra.specs.Sums.{SumLaws};

/// Sums over a list may be taken part by part, and terms that cancel in pairs do not count.
pub fn sum_laws_hold<X>()
    ensures { SumLaws X }
{}
