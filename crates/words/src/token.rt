//! What a survey file says, piece by piece.
ghost use Rattle.std.specs.Prelude.{◌≡◌, ◌≤◌};
ghost use Rattle.words.specs.Contents.{label_after, label_text};
ghost use Rattle.words.specs.Token.{entry, is_end, sites_in};

/// One piece of a survey file: a label, a complete site, or the end.
#[derive(Clone, Copy, Debug)]
pub enum Token<'a, R> {
    /// A label: the number of its label word, and its text as it stands in the file.
    Label { word: usize, text: &'a str },
    /// A site with its penalty and its reading.
    Site(Site<R>),
    /// The end of the file, with the number of its sites.
    End { sites: u32 },
}

/// A site as the file gives it. The coordinates and the penalty may be such as no survey takes.
#[derive(Clone, Copy, Debug)]
pub struct Site<R> {
    /// The number of its site word.
    pub word: usize,
    /// Its place and its penalty, which is 0 where the file has no penalty word for it.
    pub site: survey::site::Site,
    pub reading: R,
}

impl<'a, R> Token<'a, R> {
    /// How many sites the token is: 1 for a site, and otherwise 0.
    pub fn sites(&self) -> usize
        ensures value { result ≡ sites_in (entry self.now) }
        ensures bound { result ≤ 1 }
    {
        match self {
            Token::Site(_) => 1,
            Token::Label { .. } | Token::End { .. } => 0,
        }
    }

    /// Whether the token is the end of the file.
    pub fn is_end(&self) -> bool
        ensures { result ≡ is_end (entry self.now) }
    {
        matches!(self, Token::End { .. })
    }

    /// The last label after the token, where `before` was the last one before it.
    pub fn label_after(&self, before: Option<&'a str>) -> Option<&'a str>
        ensures { label_text result ≡ label_after (label_text before.entry) (entry self.now) }
    {
        match self {
            Token::Label { text, .. } => Some(*text),
            Token::Site(_) | Token::End { .. } => before,
        }
    }
}
