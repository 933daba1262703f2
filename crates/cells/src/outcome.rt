// The answer of a request that is no count, as a cell keeps it.
ghost use Rattle.std.specs.Prelude.{◌≡◌};
ghost use Rattle.cells.specs.Outcomes.{answer_of};

use requests::Answer;

#[derive(Clone, Copy, PartialEq, Eq, Debug)]
pub enum Outcome {
    Changed,
    Unchanged,
    Present,
    Absent,
}

impl<T> From<Outcome> for Answer<T> {
    ghost from_gives = { λ outcome answer. answer ≡ answer_of outcome };

    fn from(outcome: Outcome) -> Answer<T> {
        match outcome {
            Outcome::Changed => Answer::Changed,
            Outcome::Unchanged => Answer::Unchanged,
            Outcome::Present => Answer::Present,
            Outcome::Absent => Answer::Absent,
        }
    }
}
