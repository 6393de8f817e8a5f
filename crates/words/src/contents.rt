//! A whole survey file at once.
ghost use Rattle.std.specs.Prelude.{map, IfOk};
ghost use Rattle.words.specs.Contents.{Pinned, ending};
ghost use Rattle.words.specs.Token.{entry};

use crate::reader::Reader;
use crate::refusal::Refusal;
use crate::token::Token;
use grading::grading::Grading;
use std::alloc::{AllocError, Global};

/// What a survey file says: its tokens in order up to its end or its first fault.
#[derive(Drop)]
pub struct Contents<'a, R> {
    pub tokens: Vec<Token<'a, R>>,
    /// Why the file is refused, if it is.
    pub refusal: Option<Refusal<'a>>,
}

/// Reads a whole file. The tokens before a fault are kept.
pub fn read_contents<'a, G: Grading>(
    heap: Global,
    bytes: &'a [u8],
    grading: &G,
) -> Result<Contents<'a, G::Reading>, AllocError>
    ensures { IfOk result (λ t. Pinned (G.Grading.decoded grading.now) bytes.now (map entry t.tokens.items) (ending t.refusal)) }
{
    let mut reader = Reader::new(bytes);
    let mut tokens = Vec::new(heap);
    let mut label = None;
    let refusal = loop {
        match reader.next(grading) {
            Ok(Some(token)) => {
                label = token.label_after(label);
                tokens.push(token)?;
            }
            Ok(None) => break None,
            Err(fault) => break Some(Refusal { fault, label }),
        }
    };
    Ok(Contents { tokens, refusal })
}
