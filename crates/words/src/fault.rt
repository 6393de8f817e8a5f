//! What is wrong with a survey file, and where.
ghost use Rattle.std.specs.Prelude.{◌≡◌, Some};
ghost use Rattle.words.specs.Fault.{fault_words, layer_name, layer_of, number_of};

use std::error::Error;
use std::fmt;
use survey::refusal::Refusal;

/// The part of the software that found a fault.
#[derive(Clone, Copy, Debug, PartialEq, Eq)]
pub enum Layer {
    Words,
    Grading,
    Survey,
}

impl fmt::Display for Layer {
    ghost output = { λ layer. Some (layer_name layer) };

    fn fmt<W: fmt::Write>(&self, f: &mut fmt::Formatter<W>) -> fmt::Result {
        match self {
            Layer::Words => write!(f, "words"),
            Layer::Grading => write!(f, "grading"),
            Layer::Survey => write!(f, "survey"),
        }
    }
}

/// The rule that was broken. Each case has a number, by which the rules name it.
#[derive(Clone, Copy, Debug, PartialEq, Eq)]
pub enum Problem {
    /// 20: the file's length is no multiple of 4 from 4 to 32,768.
    WrongLength,
    /// 21: a word of this kind may not come here, or the file stops here without its end word.
    Misplaced,
    /// 22: the label at this label word is not well formed or not complete.
    MalformedLabel,
    /// 23: the grading does not know this reading word.
    UnknownReading,
    /// 24: the end word is not the last word, or its count is not that of the sites.
    WrongEnd,
    /// The survey refused the site at this site word. The number is that of the survey's refusal.
    Refused(Refusal),
    /// A rule that no file of words breaks, as 14 of a stretched measure: its number, and who says so. A caller
    /// reports by it what it finds itself, in the words of a file's fault.
    Other { number: u8, layer: Layer },
}

impl Problem {
    /// The fault of this kind at a word.
    pub(crate) fn at(self, word: usize) -> Fault
        ensures { result ≡ record { word = word; problem = self } }
    {
        Fault {
            word,
            problem: self,
        }
    }
}

/// The first thing wrong with a file. It goes up to the program as it is.
#[derive(Clone, Copy, Debug, PartialEq, Eq)]
pub struct Fault {
    /// The word at fault, counted from 0 in the file.
    pub word: usize,
    pub problem: Problem,
}

impl Fault {
    /// The number by which the rules name what is wrong.
    pub fn number(&self) -> u8
        ensures { result ≡ number_of self.now.problem }
    {
        match &self.problem {
            Problem::WrongLength => 20,
            Problem::Misplaced => 21,
            Problem::MalformedLabel => 22,
            Problem::UnknownReading => 23,
            Problem::WrongEnd => 24,
            Problem::Refused(refusal) => refusal.number(),
            Problem::Other { number, .. } => *number,
        }
    }

    /// Who says so.
    pub fn layer(&self) -> Layer
        ensures { result ≡ layer_of self.now.problem }
    {
        match self.problem {
            Problem::UnknownReading => Layer::Grading,
            Problem::Refused(_) => Layer::Survey,
            Problem::Other { layer, .. } => layer,
            Problem::WrongLength
            | Problem::Misplaced
            | Problem::MalformedLabel
            | Problem::WrongEnd => Layer::Words,
        }
    }
}

impl fmt::Display for Fault {
    ghost output = { λ fault. Some (fault_words fault) };

    fn fmt<W: fmt::Write>(&self, f: &mut fmt::Formatter<W>) -> fmt::Result {
        let number = self.number();
        let word = self.word;
        let layer = self.layer();
        write!(f, "refused {number} word {word} layer {layer}")
    }
}

impl Error for Fault {}
