// What a call says when it says no, and the number of each case.
ghost use Rattle.std.specs.Prelude.{◌≡◌, Some, decimal};
ghost use Rattle.keys.specs.Refusals.{refusal_number};

use std::error::Error;
use std::fmt;

#[derive(Clone, Copy, PartialEq, Eq, Debug)]
pub enum Refusal {
    NoStation,
    Uncollected,
    Full,
    NotGiven,
    Finished,
    NoNote,
    NothingToCollect,
    Unfinished,
    TooShort,
    OutOfRange,
    NoSuchLine,
    HeaderField,
    FileLength,
    RequestRow,
    AnswerRow,
    TooWide,
}

// The number by which documents, archives' faults and the console tell the refusal.
impl From<Refusal> for u8 {
    ghost from_gives = { λ refusal number. number ≡ refusal_number refusal };

    fn from(refusal: Refusal) -> u8 {
        match refusal {
            Refusal::NoStation => 1,
            Refusal::Uncollected => 2,
            Refusal::Full => 3,
            Refusal::NotGiven => 4,
            Refusal::Finished => 5,
            Refusal::NoNote => 6,
            Refusal::NothingToCollect => 7,
            Refusal::Unfinished => 8,
            Refusal::TooShort => 9,
            Refusal::OutOfRange => 10,
            Refusal::NoSuchLine => 11,
            Refusal::HeaderField => 12,
            Refusal::FileLength => 13,
            Refusal::RequestRow => 14,
            Refusal::AnswerRow => 15,
            Refusal::TooWide => 16,
        }
    }
}

// A refusal is printed as its number.
impl fmt::Display for Refusal {
    ghost output = { λ refusal. Some (decimal (refusal_number refusal)) };

    fn fmt<W: fmt::Write>(&self, f: &mut fmt::Formatter<W>) -> fmt::Result {
        let number = u8::from(*self);
        write!(f, "{number}")
    }
}

impl Error for Refusal {}
