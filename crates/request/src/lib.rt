// What is asked of a pool and what it is answered: the requests, the range that one is about, and the answers with document
// 01's numbers.
#![tactic(auto)]

ghost use Rattle.std.specs.Prelude.{◌≡◌, true, false};
ghost use Rattle.rules.specs.Range.{range_to};
ghost use Rattle.rules.specs.Request.{is_refusal};
ghost use Rattle.request.specs.Requests.{end_of, ranged};
ghost use Rattle.request.specs.Answers.{outcome_number, refusal_number, number_of};

use interval::Interval;

// Whether a range ends before its end or with it.
#[derive(Clone, Copy, PartialEq, Eq)]
pub enum End {
    Excluded,
    Included,
}

// A range as it is named by a host or a record: from `start` to `end`, and whether it ends before its end or with it.
#[derive(Clone, Copy)]
pub struct Stretch {
    pub bound: End,
    pub start: u64,
    pub end: u64,
}

// What a host or a record asks of the tree.
#[derive(Clone, Copy)]
pub enum Request {
    Insert { stretch: Stretch, value: u64 },
    Delete(Stretch),
    DeleteMin,
    DeleteMax,
    Clear,
    Query(Stretch),
}

// What a request came to that was served: an insert may find its range there, a removal may find nothing.
#[derive(Clone, Copy, PartialEq, Eq)]
pub enum Outcome {
    Done,
    There,
    Absent,
}

// Why a call, a request or a record was refused: it changed no word.
#[derive(Clone, Copy, PartialEq, Eq)]
pub enum Refusal {
    WrongLength,
    Unsound,
    PastEnd,
    Full,
    UnknownKind,
    CutShort,
}

impl From<Outcome> for u64 {
    ghost from_gives = { λ outcome number. (number ≡ outcome_number outcome) × (is_refusal number ≡ false) };

    // Document 01's number of an outcome, which is no refusal's.
    fn from(outcome: Outcome) -> u64 {
        match outcome {
            Outcome::Done => 0,
            Outcome::There => 1,
            Outcome::Absent => 2,
        }
    }
}

impl From<Refusal> for u64 {
    ghost from_gives = { λ refusal number. (number ≡ refusal_number refusal) × (is_refusal number ≡ true) };

    // Document 01's number of a refusal.
    fn from(refusal: Refusal) -> u64 {
        match refusal {
            Refusal::WrongLength => 10,
            Refusal::Unsound => 11,
            Refusal::PastEnd => 12,
            Refusal::Full => 13,
            Refusal::UnknownKind => 14,
            Refusal::CutShort => 15,
        }
    }
}

// Document 01's number of an answer. (It is no `From`, since neither type is of this crate.)
pub fn number_of(answer: Result<Outcome, Refusal>) -> u64
    ensures { result ≡ number_of answer }
{
    match answer {
        Ok(outcome) => outcome.into(),
        Err(refusal) => refusal.into(),
    }
}

// Whether a number is a refusal: the request or record that is answered with it changed no word. For whoever has an entry's
// number, and no `Outcome` or `Refusal`.
pub fn is_refusal(number: u64) -> bool
    ensures { result ≡ is_refusal number }
{
    10 <= number
}

impl Stretch {
    // The range that is named: refused where the end is included and past the last number.
    pub fn range(self) -> Result<Interval, Refusal>
        ensures { result ≡ ranged (range_to (end_of self.bound) self.start self.end) }
    {
        match self.bound {
            End::Excluded => Ok(Interval::new(self.start, self.end)),
            End::Included => Interval::from_inclusive(self.start, self.end).ok_or(Refusal::PastEnd),
        }
    }
}
