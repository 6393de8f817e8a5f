//! One 32-bit word of a survey file.
ghost use Rattle.std.specs.Prelude.{◌≡◌};
ghost use Rattle.words.specs.Word.{tagged, word_at, word_of};

/// What a word says by itself, by its kind: the top two bits.
#[derive(Clone, Copy, Debug)]
pub enum Word {
    /// A site's place.
    // Three numbers and no `Place`: a word says nothing of a survey.
    Site { x: u16, y: u16, z: u16 },
    /// The penalty of the site before it.
    Penalty(u32),
    /// A tag and a value that a grading makes a reading of.
    Reading { tag: u8, value: u32 },
    /// A label of this many bytes follows.
    Label { length: u32 },
    /// The file ends here and had this many sites.
    End { sites: u32 },
}

/// The word that 32 bits stand for. Any bits stand for one.
impl From<u32> for Word {
    ghost from_gives = { λ bits word. word ≡ word_of bits };

    fn from(bits: u32) -> Word {
        let low = bits & 0x3fff_ffff;
        match bits >> 30 {
            0 => Word::Site {
                x: (bits >> 20 & 0x3ff) as u16,
                y: (bits >> 10 & 0x3ff) as u16,
                z: (bits & 0x3ff) as u16,
            },
            1 => with_tag((bits >> 28 & 3) as u8, bits & 0xfff_ffff),
            2 => Word::Label { length: low },
            _ => Word::End { sites: low },
        }
    }
}

/// Tag 3 marks a penalty; the others are the grading's.
fn with_tag(tag: u8, value: u32) -> Word
    ensures { result ≡ tagged tag value }
{
    if tag == 3 {
        Word::Penalty(value)
    } else {
        Word::Reading { tag, value }
    }
}

/// Word number `word` of a file, if the file has that many.
pub fn word_at(bytes: &[u8], word: usize) -> Option<Word>
    ensures { result ≡ word_at bytes.now word }
{
    let (words, _) = bytes.as_chunks::<4>();
    words
        .get(word)
        .map(|bits| Word::from(u32::from_be_bytes(*bits)))
}
