//! Counting along a list.
ghost use Rattle.std.specs.Prelude.{◌≡◌};
ghost use Rattle.grading.specs.Counts.{one_more};

/// One more where a test holds. Past 255 it begins again at 0, so that it asks nothing of its callers, whose lists are short.
pub(crate) fn one_more(count: u8, holds: bool) -> u8
    ensures { result ≡ one_more count holds }
{
    count.wrapping_add(u8::from(holds))
}
