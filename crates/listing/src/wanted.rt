// What a field of a file must hold.
ghost use Rattle.std.specs.Prelude.{◌≡◌, Some};
ghost use Rattle.listing.specs.FaultTexts.{in_header_wanted, in_request_wanted, in_answer_wanted, wanted, wanted_text};

use keys::Refusal;
use std::fmt;

#[derive(Clone, Copy, PartialEq, Eq, Debug)]
pub enum Wanted {
    Kinds,
    Length,
    Edition,
    FewRows,
    KeyWidth,
    TallyWidth,
    RequestLength,
    AnswerLength,
    RequestsStart,
    AnswersStart,
    FileEnd,
    Kind,
    Station,
    TwoZeros,
    Key,
    SecondKey,
    Code,
    ThreeZeros,
    NoTally,
}

impl fmt::Display for Wanted {
    ghost output = { λ wanted. Some (wanted_text wanted) };

    fn fmt<W: fmt::Write>(&self, f: &mut fmt::Formatter<W>) -> fmt::Result {
        f.write_str(match self {
            Wanted::Kinds => "kinds of at most 16 bytes",
            Wanted::Length => "a header of 36 bytes and an end where the header tells it,",
            Wanted::Edition => "edition 1",
            Wanted::FewRows => "at most 1024 rows",
            Wanted::KeyWidth => "the width of a key of the kind named",
            Wanted::TallyWidth => "the width of a tally of the kind named",
            Wanted::RequestLength => "the length of a request row",
            Wanted::AnswerLength => "the length of an answer row",
            Wanted::RequestsStart => "36, where the request rows start,",
            Wanted::AnswersStart => "where the answer rows start",
            Wanted::FileEnd => "the length of the file",
            Wanted::Kind => "a kind from 1 to 4",
            Wanted::Station => "a station from 1 to 8",
            Wanted::TwoZeros => "two zero bytes",
            Wanted::Key => "a key",
            Wanted::SecondKey => "the second key of a count, or zero bytes,",
            Wanted::Code => "a code that answers the request, or 0,",
            Wanted::ThreeZeros => "three zero bytes",
            Wanted::NoTally => "zero bytes, as there is no tally,",
        })
    }
}

impl Wanted {
    fn in_header(at: usize) -> Wanted
        ensures { result ≡ in_header_wanted at }
    {
        match at {
            0 => Wanted::Edition,
            4 => Wanted::FewRows,
            8 => Wanted::KeyWidth,
            12 => Wanted::TallyWidth,
            16 => Wanted::RequestLength,
            20 => Wanted::AnswerLength,
            24 => Wanted::RequestsStart,
            28 => Wanted::AnswersStart,
            _ => Wanted::FileEnd,
        }
    }

    fn in_request(at: usize) -> Wanted
        ensures { result ≡ in_request_wanted at }
    {
        match at {
            0 => Wanted::Kind,
            1 => Wanted::Station,
            2 => Wanted::TwoZeros,
            4 => Wanted::Key,
            _ => Wanted::SecondKey,
        }
    }

    fn in_answer(at: usize) -> Wanted
        ensures { result ≡ in_answer_wanted at }
    {
        match at {
            0 => Wanted::Code,
            1 => Wanted::ThreeZeros,
            _ => Wanted::NoTally,
        }
    }

    // What was expected, by the refusal and the place of the field; only five refusals are told of a file.
    pub fn of(refusal: Refusal, at: usize) -> Wanted
        ensures { result ≡ wanted refusal at }
    {
        match refusal {
            Refusal::TooWide => Wanted::Kinds,
            Refusal::FileLength => Wanted::Length,
            Refusal::HeaderField => Wanted::in_header(at),
            Refusal::RequestRow => Wanted::in_request(at),
            _ => Wanted::in_answer(at),
        }
    }
}
