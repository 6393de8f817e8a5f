//! Reading a survey file, token by token.
ghost use Rattle.std.specs.Prelude.{◌≡◌, ◌+◌, ◌^◌, ◌<◌, false};
ghost use Rattle.words.specs.Look.{content, due, found, reading_at, site_from};
ghost use Rattle.words.specs.Reader.{Next, well_sized};
ghost use Rattle.words.specs.Word.{word_at};

use crate::fault::{Fault, Problem};
use crate::label::label_text;
use crate::reader::{LONGEST, Reader};
use crate::token::{Site, Token};
use crate::word::{Word, word_at};
use grading::grading::Grading;
use survey::site::Place;

impl<'a> Reader<'a> {
    /// A reader at the start of a file.
    pub fn new(bytes: &'a [u8]) -> Reader<'a>
        ensures bytes { result.bytes.now ≡ bytes.now }
        ensures start { (result.word ≡ 0) × (result.sites ≡ 0) × (result.ended ≡ false) }
    {
        Reader {
            bytes,
            word: 0,
            sites: 0,
            ended: false,
        }
    }

    /// The next token, or `None` after the end of the file, or the first fault. A fault moves
    /// nothing: the same call finds it again.
    pub fn next<G: Grading>(&mut self, grading: &G) -> Result<Option<Token<'a, G::Reading>>, Fault>
        ensures next { Next (G.Grading.decoded grading.now) self.old result self.new }
        ensures bytes { self.new.bytes.now ≡ self.old.bytes.now }
    {
        if !is_well_sized(self.bytes.len()) {
            return Err(Problem::WrongLength.at(0));
        }
        if self.ended {
            return Ok(None);
        }
        let (token, after) = look(self.bytes, self.word, self.sites, grading)?;
        self.word = after;
        self.sites += token.sites();
        self.ended = token.is_end();
        Ok(Some(token))
    }
}

/// A file is whole words, and at least one.
fn is_well_sized(bytes: usize) -> bool
    ensures { result ≡ well_sized bytes }
{
    bytes.is_multiple_of(4) && (4..=LONGEST).contains(&bytes)
}

// From here on a file and a word, and no reader: words ahead are looked at without moving one.

/// The token that begins at a word, of `sites` sites before it, and the word after it.
fn look<'a, G: Grading>(
    bytes: &'a [u8],
    word: usize,
    sites: usize,
    grading: &G,
) -> Result<(Token<'a, G::Reading>, usize), Fault>
    ensures { content result ≡ found (G.Grading.decoded grading.now) bytes.now word sites (word_at bytes.now word) }
{
    match word_at(bytes, word) {
        Some(Word::Site { x, y, z }) => site_at(bytes, word, Place { x, y, z }, grading),
        Some(Word::Label { length }) => {
            let rest = &bytes[4 * (word + 1)..];
            let text = label_text(rest, length).ok_or(Problem::MalformedLabel.at(word))?;
            let after = word + 1 + (length as usize).div_ceil(4);
            Ok((Token::Label { word, text }, after))
        }
        Some(Word::End { sites: count }) => {
            if word + 1 == bytes.len() / 4 && count as usize == sites {
                Ok((Token::End { sites: count }, word + 1))
            } else {
                Err(Problem::WrongEnd.at(word))
            }
        }
        _ => Err(Problem::Misplaced.at(word)),
    }
}

/// The site at a place whose site word is number `word`.
fn site_at<'a, G: Grading>(
    bytes: &'a [u8],
    word: usize,
    place: Place,
    grading: &G,
) -> Result<(Token<'a, G::Reading>, usize), Fault>
    requires { word < 2 ^ 62 }
    ensures { content result ≡ site_from (G.Grading.decoded grading.now) bytes.now word place.x place.y place.z (due word (word_at bytes.now (word + 1))) }
{
    let (penalty, at) = after_site(bytes, word);
    let reading = reading_at(bytes, at, grading)?;
    Ok((
        Token::Site(Site {
            word,
            site: survey::site::Site { place, penalty },
            reading,
        }),
        at + 1,
    ))
}

/// The penalty of the site at a site word, which is 0 unless a penalty word comes next, and the
/// number of the word where the reading is due.
fn after_site(bytes: &[u8], word: usize) -> (u32, usize)
    requires { word < 2 ^ 62 }
    ensures { result ≡ due word (word_at bytes.now (word + 1)) }
{
    match word_at(bytes, word + 1) {
        Some(Word::Penalty(penalty)) => (penalty, word + 2),
        _ => (0, word + 1),
    }
}

/// The reading that is due at a word.
fn reading_at<G: Grading>(bytes: &[u8], word: usize, grading: &G) -> Result<G::Reading, Fault>
    ensures { result ≡ reading_at (G.Grading.decoded grading.now) word (word_at bytes.now word) }
{
    let Some(Word::Reading { tag, value }) = word_at(bytes, word) else {
        return Err(Problem::Misplaced.at(word));
    };
    grading
        .decode(tag, value)
        .ok_or(Problem::UnknownReading.at(word))
}
