//! Why a survey file was refused, for whoever has to mend it.
ghost use Rattle.std.specs.Prelude.{◌≡◌, IfOk, Some, string_bytes};
ghost use Rattle.words.specs.Contents.{label_text};
ghost use Rattle.words.specs.Refusal.{refusal_text, refusal_words};

use crate::fault::Fault;
use std::alloc::{AllocError, Global};
use std::error::Error;
use std::fmt;

/// The first fault of a file and the last label that was accepted before it.
#[derive(Clone, Copy, Debug)]
pub struct Refusal<'a> {
    pub fault: Fault,
    pub label: Option<&'a str>,
}

/// What a program prints before it gives up, without the newline.
impl fmt::Display for Refusal<'_> {
    ghost output = { λ r. Some (refusal_words r.fault (label_text r.label)) };

    fn fmt<W: fmt::Write>(&self, f: &mut fmt::Formatter<W>) -> fmt::Result {
        let label = self.label.unwrap_or("-");
        write!(f, "{} label {label}", self.fault)
    }
}

impl Error for Refusal<'_> {}

impl Refusal<'_> {
    /// The line that a program prints before it gives up, with its newline.
    pub fn line(&self, heap: Global) -> Result<String, AllocError>
        ensures { IfOk result (λ s. string_bytes s ≡ refusal_text self.now.fault (label_text self.now.label)) }
    {
        format!(in heap; "{self}\n")
    }
}
