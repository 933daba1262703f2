// What stands in a file where a field is wrong: the number of a header field, a byte, or the end of the file.
ghost use Rattle.std.specs.Prelude.{◌≡◌, Some};
ghost use Rattle.listing.specs.FaultTexts.{told_at, found, found_text};

use keys::Refusal;
use std::fmt;

#[derive(Clone, Copy, PartialEq, Eq, Debug)]
pub enum Found {
    Number(u32),
    Byte(u8),
    End,
}

impl fmt::Display for Found {
    ghost output = { λ found. Some (found_text found) };

    fn fmt<W: fmt::Write>(&self, f: &mut fmt::Formatter<W>) -> fmt::Result {
        match self {
            Found::Number(number) => write!(f, "the number {number}"),
            Found::Byte(byte) => write!(f, "a field that begins with byte {byte}"),
            Found::End => write!(f, "the end of the file"),
        }
    }
}

// The number in the four bytes at an offset, 0 where there are not so many.
// Kept: the sentence tells 0 there too, and the archive's own fields are read only where they are known to stand.
pub fn number_at(bytes: &[u8], offset: usize) -> u32
    ensures { result ≡ told_at offset bytes.now }
{
    match bytes.get(offset..) {
        Some([a, b, c, d, ..]) => u32::from_be_bytes([*a, *b, *c, *d]),
        _ => 0,
    }
}

impl Found {
    // What stands at an offset: the number in a header field, else the byte.
    pub fn at(refusal: Refusal, bytes: &[u8], offset: usize) -> Found
        ensures { found_text result ≡ found refusal bytes.now offset }
    {
        if refusal == Refusal::HeaderField {
            return Found::Number(number_at(bytes, offset));
        }
        bytes
            .get(offset)
            .map_or(Found::End, |byte| Found::Byte(*byte))
    }
}
