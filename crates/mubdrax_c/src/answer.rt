//! Answers as plain data.
ghost use Rattle.std.specs.Prelude.{◌≡◌};
ghost use Rattle.mubdrax_c.specs.Answers.{answer_of, done_or_refused, named, no_survey, refusal_answer};

use survey::refusal::Refusal;

/// The number of the refusal, or 0 where the call is accepted. The value is then the site number or the record that
/// the call returns; with refusal 12 it is the point that would vanish. Where there is nothing to say it is 0.
///
/// C has no `Result`, so the numbers of this struct are its interface.
#[repr(C)]
#[derive(Clone, Copy)]
pub struct Answer {
    pub refusal: u32,
    pub value: u32,
}

/// 15: no survey has the counts that were handed in.
const NO_SURVEY: u32 = 15;

impl Answer {
    pub(crate) fn accepted(value: u16) -> Answer
        ensures { result ≡ record { refusal = 0; value = value } }
    {
        Answer {
            refusal: 0,
            value: u32::from(value),
        }
    }

    /// The answer where no survey has the counts.
    pub(crate) fn no_survey() -> Answer
        ensures { result ≡ no_survey }
    {
        Answer {
            refusal: NO_SURVEY,
            value: 0,
        }
    }
}

impl From<Refusal> for Answer {
    ghost from_gives = { λ refusal answer. answer ≡ refusal_answer refusal };

    fn from(refusal: Refusal) -> Answer {
        Answer {
            refusal: u32::from(refusal.number()),
            value: u32::from(named_point(&refusal)),
        }
    }
}

/// The answer of a call that returns a number.
impl From<Result<u16, Refusal>> for Answer {
    ghost from_gives = { λ outcome answer. answer ≡ answer_of outcome };

    fn from(outcome: Result<u16, Refusal>) -> Answer {
        match outcome {
            Ok(value) => Answer::accepted(value),
            Err(refusal) => Answer::from(refusal),
        }
    }
}

/// The answer of a call that returns nothing.
impl From<Result<(), Refusal>> for Answer {
    ghost from_gives = { λ outcome answer. answer ≡ done_or_refused outcome };

    fn from(outcome: Result<(), Refusal>) -> Answer {
        Answer::from(outcome.map(|()| 0))
    }
}

/// The point that comes with a refusal.
fn named_point(refusal: &Refusal) -> u16
    ensures { result ≡ named refusal.now }
{
    match refusal {
        Refusal::Vanishes(point) => *point,
        _ => 0,
    }
}
