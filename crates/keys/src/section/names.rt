// Names of track sections and the eight bytes that hold one, as tests and conversions on bytes.
ghost use Rattle.std.specs.Prelude.{◌≡◌};
ghost use Rattle.keys.specs.Names.{is_character, all_characters, is_name, is_section};

use octets::{are_all, before};

pub const LONGEST_NAME: usize = 8;

fn is_character(byte: u8) -> bool
    ensures { result ≡ is_character byte }
{
    matches!(byte, b'A'..=b'Z' | b'0'..=b'9')
}

fn all_characters(name: &[u8]) -> bool
    ensures { result ≡ all_characters name.now }
{
    name.iter().all(|byte| is_character(*byte))
}

pub fn is_name(name: &[u8]) -> bool
    ensures { result ≡ is_name name.now }
{
    (1..=LONGEST_NAME).contains(&name.len()) && all_characters(name)
}

// Whether the bytes are eight that hold a name, and zeros alone after it.
pub fn is_section(bytes: &[u8]) -> bool
    ensures { result ≡ is_section bytes.now }
{
    let name = before(bytes, 0);
    if bytes.len() != LONGEST_NAME {
        return false;
    }
    if !is_name(name) {
        return false;
    }
    are_all(&bytes[name.len()..], 0)
}
