//! Soil: the ground's kind, by what most of the four points have.
ghost use Rattle.std.specs.Prelude.{◌≡◌, ◌++◌, Some, true, codes, decimal};
ghost use Rattle.grading.specs.Soil.{Coded, Leads, code, commonest, more_voted, reading_of, votes, codes as codes_of};
ghost use Rattle.std.specs.List.{fold, range_with_len};
ghost use Rattle.std.proofs.Common.{arith};
ghost use Rattle.grading.specs.Votes.{winner_le, front_swap, middle_swap, back_swap};

use crate::counts::one_more;
use crate::grading::Grading;
use std::error::Error;
use std::fmt;

/// What the crew found at one site. Each kind has the code that stands in survey words.
#[derive(Clone, Copy, PartialEq, Eq, Hash, Debug)]
pub enum Reading {
    Sand = 0,
    Clay = 1,
    Peat = 2,
    Fill = 3,
}

/// A code that no kind of soil has.
#[derive(Clone, Copy, PartialEq, Eq, Hash, Debug)]
pub struct UnknownSoil(pub u32);

impl fmt::Display for UnknownSoil {
    ghost output = { λ e. Some (codes "no soil has code " ++ decimal e.0) };

    fn fmt<W: fmt::Write>(&self, f: &mut fmt::Formatter<W>) -> fmt::Result {
        write!(f, "no soil has code {}", self.0)
    }
}

impl Error for UnknownSoil {}

impl TryFrom<u32> for Reading {
    type Error = UnknownSoil;

    ghost try_from_gives = { Coded };

    fn try_from(code: u32) -> Result<Reading, UnknownSoil> {
        match code {
            0 => Ok(Reading::Sand),
            1 => Ok(Reading::Clay),
            2 => Ok(Reading::Peat),
            3 => Ok(Reading::Fill),
            _ => Err(UnknownSoil(code)),
        }
    }
}

impl From<Reading> for u8 {
    ghost from_gives = { λ kind n. n ≡ code kind };

    fn from(kind: Reading) -> u8 {
        kind as u8
    }
}

/// The grading by the soil that most of a tetrahedron's points have.
#[derive(Clone, Copy, PartialEq, Eq, Hash, Default, Debug)]
pub struct Soil;

impl Grading for Soil {
    type Reading = Reading;

    ghost admitted = { λ _ _. true };

    ghost classed = { λ _ a b c d. commonest a b c d };

    ghost decoded = { λ _ tag value. reading_of tag value };

    ghost eight = { λ g a b c d. let h = winner_le 3 (codes_of a b c d) in omega arith };

    ghost front = { λ g a b c d. front_swap a b c d };

    ghost middle = { λ g a b c d. middle_swap a b c d };

    ghost back = { λ g a b c d. back_swap a b c d };

    fn admits(&self, reading: &Reading) -> bool {
        true
    }

    #[tactic(auto, using(crate::specs::Votes::leads_of))]
    fn class(&self, a: &Reading, b: &Reading, c: &Reading, d: &Reading) -> u8
        ensures value { result ≡ commonest a.now b.now c.now d.now }
        ensures leads { Leads 4 result (codes_of a.now b.now c.now d.now) }
    {
        most_frequent(&[u8::from(*a), u8::from(*b), u8::from(*c), u8::from(*d)])
    }

    fn decode(&self, tag: u8, value: u32) -> Option<Reading> {
        // The tag is a number by the format of survey words.
        match tag {
            0 => Reading::try_from(value).ok(),
            _ => None,
        }
    }
}

/// The code that most of the four have, the lowest where several tie.
// Over codes and not over kinds: a price class is the code itself.
fn most_frequent(codes: &[u8; 4]) -> u8
    ensures { result ≡ fold (λ leader k. more_voted leader k codes.now) 0 (range_with_len 1 3) }
{
    (1..4).fold(0, |leader, code| more_frequent(leader, code, codes))
}

/// Of two codes the one that more of the four have, the leader where as many have it.
fn more_frequent(leader: u8, code: u8, codes: &[u8; 4]) -> u8
    ensures { result ≡ more_voted leader code codes.now }
{
    if count_of(leader, codes) < count_of(code, codes) {
        code
    } else {
        leader
    }
}

/// How many of the four have this code.
fn count_of(code: u8, codes: &[u8; 4]) -> u8
    ensures { result ≡ votes code codes.now }
{
    // No `filter` and `count`: that took four times as long.
    codes
        .iter()
        .fold(0, |count, other| one_more(count, *other == code))
}
