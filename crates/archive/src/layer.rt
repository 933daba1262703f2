// The three layers of a file.
ghost use Rattle.std.specs.Prelude.{◌≡◌, Some};
ghost use Rattle.archive.specs.Layers.{layer_word};

use std::fmt;

#[derive(Clone, Copy, PartialEq, Eq, Debug)]
pub enum Layer {
    Header,
    Requests,
    Answers,
}

impl Layer {
    // Kept beside Display: a formatter may fail, and this can't.
    pub fn word(self) -> &'static str
        ensures { result.now ≡ layer_word self }
    {
        match self {
            Layer::Header => "header",
            Layer::Requests => "requests",
            Layer::Answers => "answers",
        }
    }
}

// A layer is printed as its word.
impl fmt::Display for Layer {
    ghost output = { λ layer. Some (layer_word layer) };

    fn fmt<W: fmt::Write>(&self, f: &mut fmt::Formatter<W>) -> fmt::Result {
        f.write_str(self.word())
    }
}
