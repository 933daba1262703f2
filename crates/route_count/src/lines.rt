// A text handed out line by line.
ghost use Rattle.std.specs.Prelude.{◌≡◌, ◌<◌, length, IfSome};
ghost use Rattle.std.specs.Iterator.{YieldsFirstRef, item_count};
ghost use Rattle.route_count.specs.Rows.{lines, parted};

use octets::length_before;

// The first line, and what stands behind it; none where the text is empty.
fn first_line(text: &[u8]) -> Option<(&[u8], &[u8])>
    ensures answer { lines text.now ≡ parted result }
    ensures bound { IfSome result (λ p. length p.1.now < length text.now) }
{
    if text.is_empty() {
        return None;
    }
    let size = length_before(text, b'\n');
    if size >= text.len() {
        return Some((text, &text[text.len()..]));
    }
    Some((&text[..size], &text[size + 1..]))
}

// Kept beside pieces between separators: a newline ends a line, so that there is none behind the last.
#[derive(Clone, Copy, PartialEq, Eq, Debug)]
pub struct Lines<'a> {
    left: &'a [u8],
}

impl<'a> Lines<'a> {
    pub fn new(text: &'a [u8]) -> Lines<'a>
        ensures { result.left.now ≡ text.now }
    {
        Lines { left: text }
    }
}

// The lines come from the front, none after the last.
impl<'a> Iterator for Lines<'a> {
    type Item = &'a [u8];

    ghost next_gives = { YieldsFirstRef (λ s. lines s.left.now) };

    ghost remaining = { item_count (λ s. lines s.left.now) };

    fn next(&mut self) -> Option<&'a [u8]> {
        let (line, rest) = first_line(self.left)?;
        self.left = rest;
        Some(line)
    }
}
