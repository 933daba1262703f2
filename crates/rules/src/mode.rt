// How much of a count is still open at a place, and the word for each.
ghost use Rattle.std.specs.Prelude.{◌≡◌, Some};
ghost use Rattle.rules.specs.Words.{mode_word};

use std::fmt;

#[derive(Clone, Copy, PartialEq, Eq, Debug)]
pub enum Mode {
    // Both ends are still open.
    Between,
    // Only the lower end: every key here is at most the upper one.
    From,
    // Only the upper end: every key here is at least the lower one.
    Upto,
}

impl Mode {
    // Kept beside Display: a formatter may fail, and this can't.
    pub fn word(self) -> &'static str
        ensures { result.now ≡ mode_word self }
    {
        match self {
            Mode::Between => "between",
            Mode::From => "from",
            Mode::Upto => "upto",
        }
    }
}

impl fmt::Display for Mode {
    ghost output = { λ x. Some (mode_word x) };

    fn fmt<W: fmt::Write>(&self, f: &mut fmt::Formatter<W>) -> fmt::Result {
        f.write_str(self.word())
    }
}
