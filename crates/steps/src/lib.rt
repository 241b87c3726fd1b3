// What can be asked of the machine and what it answers.
#![tactic(auto)]

ghost use Rattle.std.specs.Prelude.{◌≡◌};
ghost use Rattle.steps.specs.Answers.{numbers, numbers_by};
ghost use Rattle.steps.specs.Codes.{vote_number, verdict_number};

use numbers::Numbered;

// How often a key was written, the first value counting as one; and a transaction's place in the order, 0 for none.
#[derive(Clone, Copy, Debug, PartialEq, Eq, PartialOrd, Ord)]
pub struct Version(pub u32);

#[derive(Clone, Copy, Debug, PartialEq, Eq, PartialOrd, Ord)]
pub struct Place(pub u32);

#[derive(Clone, Copy, Debug, PartialEq, Eq)]
pub enum Step {
    Read { t: u8, i: u8, s: u8 },
    Submit(u8),
    Deliver(u8),
    Carry { t: u8, from: u8, to: u8 },
    Close { t: u8, s: u8 },
    Settle,
}

#[derive(Clone, Copy, Debug, PartialEq, Eq)]
pub enum Vote {
    Yes = 1,
    No = 2,
}

#[derive(Clone, Copy, Debug, PartialEq, Eq)]
pub enum Verdict {
    Commit = 1,
    Abort = 2,
}

// What an accepted step answers. Vote and verdict are the numbers that the state keeps: CARRY may find any there, and an
// effect closes with 0 where no verdict is known.
#[derive(Clone, Copy, Debug, PartialEq, Eq)]
pub enum Answer {
    Read(Version, u32),
    Submitted(Place),
    Delivered { t: u8, vote: u8 },
    Carried(u8),
    Closed(u8),
    Settled(u32),
}

// An answer as it is listed.
#[derive(Clone, Copy, Debug, PartialEq, Eq)]
pub struct Numbers {
    pub code: u32,
    pub first: u32,
    pub second: u32,
}

fn listed(code: u32, first: u32, second: u32) -> Numbers
    ensures { result ≡ numbers code first second }
{
    Numbers {
        code,
        first,
        second,
    }
}

impl<R: Numbered> From<Result<Answer, R>> for Numbers {
    ghost from_gives = { λ a n. n ≡ numbers_by R.listed_number a };

    // An answer's number and its two values.
    fn from(answer: Result<Answer, R>) -> Numbers {
        match answer {
            Ok(Answer::Read(version, value)) => listed(0, version.0, value),
            Ok(Answer::Submitted(place)) => listed(0, place.0, 0),
            Ok(Answer::Delivered { t, vote }) => listed(0, u32::from(t), u32::from(vote)),
            Ok(Answer::Carried(vote)) => listed(0, u32::from(vote), 0),
            Ok(Answer::Closed(verdict)) => listed(0, u32::from(verdict), 0),
            Ok(Answer::Settled(count)) => listed(0, count, 0),
            Err(refusal) => listed(u32::from(refusal.listed_number()), 0, 0),
        }
    }
}

// As of refusals, each says its own number in a word.
impl Vote {
    // The number by which a vote is kept.
    pub fn number(self) -> u8
        ensures { result ≡ vote_number (Some self) }
    {
        self as u8
    }
}

impl Verdict {
    // The number by which a verdict is kept.
    pub fn number(self) -> u8
        ensures { result ≡ verdict_number (Some self) }
    {
        self as u8
    }
}
