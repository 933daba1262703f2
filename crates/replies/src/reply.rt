// What the console answers to a line.
use keys::Refusal;
use requests::Answer;
use rules::Carried;
use tallies::Number;

#[derive(Clone, Copy, PartialEq, Eq, Debug)]
pub enum Reply {
    // A submitted request's number.
    Submitted { number: u16 },
    // The place where the followed request waits, and the head of the queue there.
    Followed { place: u16, head: u16 },
    Carried(Carried),
    // The collected request's number and its answer.
    Collected { number: u16, answer: Answer<Number> },
    // The line was turned down.
    Refused(Refusal),
}
