//! The lines of a listing.
ghost use Rattle.std.specs.Prelude.{◌≡◌, ◌^◌, ◌<◌, length, IfOk, Some, string_bytes};
ghost use Rattle.listing.specs.Lines.{listing_text, reading_text, token_line, token_lines};

use crate::amount::Amount;
use grading::assay::Reading;
use std::alloc::{AllocError, Global};
use std::fmt;
use survey::site::FIRST_SITE;
use words::contents::Contents;
use words::token::Token;

/// One line for each token, and at a fault the refusal line behind them.
pub(crate) fn listing(heap: Global, contents: &Contents<Reading>) -> Result<String, AllocError>
    ensures { IfOk result (λ s. string_bytes s ≡ listing_text contents.now) }
{
    let mut text = token_lines(heap, &contents.tokens)?;
    if let Some(refusal) = contents.refusal {
        writeln!(text, "{refusal}")?;
    }
    Ok(text)
}

fn token_lines(heap: Global, tokens: &[Token<Reading>]) -> Result<String, AllocError>
    requires { length tokens.now < 2 ^ 63 }
    ensures { IfOk result (λ s. string_bytes s ≡ token_lines 4 tokens.now) }
{
    let mut text = String::new(heap);
    let mut number = usize::from(FIRST_SITE);
    for token in tokens {
        write!(text, "{}", Line { number, token })?;
        number += token.sites();
    }
    Ok(text)
}

/// The line of one token.
#[derive(Clone, Copy)]
struct Line<'a> {
    /// The number that the next site gets.
    number: usize,
    token: &'a Token<'a, Reading>,
}

impl fmt::Display for Line<'_> {
    ghost output = { λ line. Some (token_line line.number line.token.now) };

    fn fmt<W: fmt::Write>(&self, f: &mut fmt::Formatter<W>) -> fmt::Result {
        match self.token {
            Token::Label { text, .. } => writeln!(f, "label {text}"),
            Token::Site(entry) => {
                let place = entry.site.place;
                let (x, y, z) = (place.x, place.y, place.z);
                let penalty = entry.site.penalty;
                let reading = InWords(&entry.reading);
                writeln!(
                    f,
                    "site {} {x} {y} {z} penalty {penalty} {reading}",
                    self.number
                )
            }
            Token::End { sites } => writeln!(f, "end {sites}"),
        }
    }
}

/// A reading in words.
#[derive(Clone, Copy)]
struct InWords<'a>(&'a Reading);

impl fmt::Display for InWords<'_> {
    ghost output = { λ reading. Some (reading_text reading.0.now) };

    fn fmt<W: fmt::Write>(&self, f: &mut fmt::Formatter<W>) -> fmt::Result {
        match self.0 {
            Reading::Measured(amount) => write!(f, "measured {}", Amount(*amount)),
            Reading::Below(limit) => write!(f, "below {}", Amount(*limit)),
            Reading::Missing => write!(f, "missing"),
        }
    }
}
