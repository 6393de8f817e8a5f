//! The interface between a survey and the readings taken at its sites.
ghost use Rattle.std.specs.Prelude.{◌≡◌, ℕ, ◌<◌, Bool, Option};

/// A rule that turns readings into price classes.
///
/// Its answers depend on the grading and the arguments alone and alter nothing. The ghost members
/// say what the three functions answer; the laws hold of every grading.
pub trait Grading {
    /// What a probe reports at one site.
    type Reading: Copy;

    ghost admitted: { Self → Self.Reading → Bool };

    ghost classed: { Self → Self.Reading → Self.Reading → Self.Reading → Self.Reading → ℕ };

    ghost decoded: { Self → ℕ → ℕ → Option Self.Reading };

    /// Whether a survey may take this reading.
    fn admits(&self, reading: &Self::Reading) -> bool
        ensures { result ≡ admitted self.now reading.now };

    /// The price class, 0 to 7, of a tetrahedron with these readings at its points. Any readings
    /// have one, admitted or not.
    // Four readings and no array of them: the laws below swap two of them by name.
    fn class(
        &self,
        a: &Self::Reading,
        b: &Self::Reading,
        c: &Self::Reading,
        d: &Self::Reading,
    ) -> u8
        ensures { result ≡ classed self.now a.now b.now c.now d.now };

    /// The reading that a tag and a value of a survey word stand for, if the grading knows them.
    fn decode(&self, tag: u8, value: u32) -> Option<Self::Reading>
        ensures { result ≡ decoded self.now tag value };

    // There are eight price classes, 0 to 7.
    ghost eight: { (g : Self) (a b c d : Self.Reading) → classed g a b c d < 8 };

    // Swaps of two readings that stand side by side: together they give every order.
    ghost front: { (g : Self) (a b c d : Self.Reading) → classed g b a c d ≡ classed g a b c d };

    ghost middle: { (g : Self) (a b c d : Self.Reading) → classed g a c b d ≡ classed g a b c d };

    ghost back: { (g : Self) (a b c d : Self.Reading) → classed g a b d c ≡ classed g a b c d };
}
