// Why a file, tables or a step are refused, and the listed number of each reason.
#![tactic(auto)]

ghost use Rattle.std.specs.Prelude.{◌≡◌, ℕ};
ghost use Rattle.numbers.specs.Numbers.{file_number, step_number};

#[derive(Clone, Copy, Debug, PartialEq, Eq)]
pub enum FileRefusal {
    // Over 60,000 bytes.
    TooLong = 1,
    // Fewer than 3 bytes where a record must start, or a short body.
    Cut = 2,
    // A tag not allowed at this place.
    Misplaced = 3,
    // A wrong length.
    Length = 4,
    // A count or number out of range.
    Range = 5,
    // A key twice among the reads, or among the writes, of one transaction.
    Twice = 6,
    // A key that no group holds.
    Unheld = 7,
    // The C caller's output is too short.
    NoRoom = 9,
}

#[derive(Clone, Copy, Debug, PartialEq, Eq)]
pub enum StepRefusal {
    Unusable = 10,
    NoTransaction = 20,
    NoSite = 21,
    NoRead = 22,
    // The site lacks the key, or is not in R(t).
    NotThere = 23,
    // This was done before.
    Done = 24,
    // A read is still missing.
    Missing = 25,
    NothingToDeliver = 26,
    // The next one conflicts with one in the queue.
    Conflict = 27,
    // t is local, from equals to, or from has cast no vote on t.
    NoVote = 28,
    NotDelivered = 29,
    // The verdict is not known.
    NoVerdict = 30,
    // A commit that is not at the head.
    NotHead = 31,
    // A written key's version is the last.
    LastVersion = 32,
}

// Each says its own number in a word; a trait over both would be no plainer.
impl FileRefusal {
    pub fn number(self) -> u8
        ensures { result ≡ file_number self }
    {
        self as u8
    }
}

impl StepRefusal {
    pub fn number(self) -> u8
        ensures { result ≡ step_number self }
    {
        self as u8
    }
}

// What a step is listed as refused with: a reason of the machine's, or any byte.
pub trait Numbered: Copy {
    ghost listed_number: { Self → ℕ };

    fn listed_number(&self) -> u8
        ensures { result ≡ listed_number self.now };
}

impl Numbered for StepRefusal {
    ghost listed_number = { step_number };

    fn listed_number(&self) -> u8 {
        self.number()
    }
}

impl Numbered for u8 {
    ghost listed_number = { λ n. n };

    fn listed_number(&self) -> u8 {
        *self
    }
}
