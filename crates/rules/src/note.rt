// What a station has noted for its next carry.
ghost use Rattle.std.specs.Prelude.{◌≡◌, Some};
ghost use Rattle.rules.specs.Words.{note_word};

use std::fmt;

#[derive(Clone, Copy, PartialEq, Eq, Debug)]
pub enum Note {
    // Kept as a case and no Option: the rules match all three with head and decision.
    None,
    // The request that stood at the head of the place's queue.
    Saw { request: u16, place: u16 },
    // The request whose decision is sought, and the place to look at next.
    Walk { request: u16, next: u16 },
}

impl Note {
    // Kept beside Display: a formatter may fail, and this can't.
    pub fn word(self) -> &'static str
        ensures { result.now ≡ note_word self }
    {
        match self {
            Note::None => "none",
            Note::Saw { .. } => "saw",
            Note::Walk { .. } => "walk",
        }
    }
}

impl fmt::Display for Note {
    ghost output = { λ x. Some (note_word x) };

    fn fmt<W: fmt::Write>(&self, f: &mut fmt::Formatter<W>) -> fmt::Result {
        f.write_str(self.word())
    }
}
