// The answer to a request, and the code of each.
ghost use Rattle.std.specs.Prelude.{◌≡◌};
ghost use Rattle.requests.specs.Answers.{answer_code, answers};

use super::kind::Kind;

#[derive(Clone, Copy, PartialEq, Eq, Debug)]
pub enum Answer<T> {
    // The key was entered or withdrawn.
    Changed,
    // It was present already, or absent already.
    Unchanged,
    Present,
    Absent,
    // The joined weights of the keys asked for.
    Counted(T),
}

impl<T> Answer<T> {
    // Kept: a code forgets a count's tally, so it is no conversion of the answer.
    pub fn code(&self) -> u8
        ensures { result ≡ answer_code self.now }
    {
        match self {
            Answer::Changed => 1,
            Answer::Unchanged => 2,
            Answer::Present => 3,
            Answer::Absent => 4,
            Answer::Counted(_) => 5,
        }
    }

    // Whether this is an answer that requests of that kind get.
    pub fn belongs_to(&self, kind: Kind) -> bool
        ensures { result ≡ answers kind (answer_code self.now) }
    {
        match (kind, self) {
            (Kind::Enter | Kind::Withdraw, Answer::Changed | Answer::Unchanged) => true,
            (Kind::LookUp, Answer::Present | Answer::Absent) => true,
            (Kind::Count, Answer::Counted(_)) => true,
            (_, _) => false,
        }
    }
}
