// A text handed out piece by piece, cut at a separator.
ghost use Rattle.std.specs.Prelude.{◌≡◌, ◌∷◌};
ghost use Rattle.std.specs.Iterator.{YieldsFirstRef, item_count};
ghost use Rattle.octets.specs.Cuts.{pieces, pieces_of};

use super::runs::length_before;

// The first piece, and what is left behind its separator.
fn cut(text: &[u8], separator: u8) -> (&[u8], Option<&[u8]>)
    ensures { pieces separator text.now ≡ result.0.now ∷ pieces_of separator result.1 }
{
    let size = length_before(text, separator);
    if size >= text.len() {
        return (text, None);
    }
    (&text[..size], Some(&text[size + 1..]))
}

#[derive(Clone, Copy, PartialEq, Eq, Debug)]
pub struct Pieces<'a> {
    rest: Option<&'a [u8]>,
    separator: u8,
}

impl<'a> Pieces<'a> {
    pub fn new(text: &'a [u8], separator: u8) -> Pieces<'a>
        ensures { pieces_of result.separator result.rest ≡ pieces separator text.now }
    {
        Pieces {
            rest: Some(text),
            separator,
        }
    }
}

// The pieces come from the front, none after the last.
impl<'a> Iterator for Pieces<'a> {
    type Item = &'a [u8];

    ghost next_gives = { YieldsFirstRef (λ s. pieces_of s.separator s.rest) };

    ghost remaining = { item_count (λ s. pieces_of s.separator s.rest) };

    fn next(&mut self) -> Option<&'a [u8]> {
        let (piece, rest) = cut(self.rest?, self.separator);
        self.rest = rest;
        Some(piece)
    }
}
