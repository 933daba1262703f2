// What a carry answers, and the word for each.
ghost use Rattle.std.specs.Prelude.{◌≡◌, Some};
ghost use Rattle.rules.specs.Words.{carried_word};

use std::fmt;

#[derive(Clone, Copy, PartialEq, Eq, Debug)]
pub enum Carried {
    // What the note says no longer holds.
    Late,
    // The request's decision is written.
    Decided,
    // The search for the decision goes one place down.
    Walking,
    // The request has left the place's queue.
    Moved,
}

impl Carried {
    // Kept beside Display: a formatter may fail, and this can't.
    pub fn word(self) -> &'static str
        ensures { result.now ≡ carried_word self }
    {
        match self {
            Carried::Late => "late",
            Carried::Decided => "decided",
            Carried::Walking => "walking",
            Carried::Moved => "moved",
        }
    }
}

impl fmt::Display for Carried {
    ghost output = { λ x. Some (carried_word x) };

    fn fmt<W: fmt::Write>(&self, f: &mut fmt::Formatter<W>) -> fmt::Result {
        f.write_str(self.word())
    }
}
