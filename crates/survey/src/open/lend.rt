ghost use Rattle.std.specs.Prelude.{◌≡◌};

use super::Open;

impl<M, G> Open<M, G> {
    /// The grading that the survey was created with.
    pub fn grading(&self) -> &G
        ensures { result.now ≡ self.now.grading }
    {
        &self.grading
    }
}
