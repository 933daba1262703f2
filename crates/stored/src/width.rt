// The width of a stored kind, and whether a row has room for it.
ghost use Rattle.std.specs.Prelude.{◌≡◌, ◌≤◌, length, Ok, OnOk};
ghost use Rattle.stored.specs.Forms.{width_of, checked};

use keys::Refusal;

// The most bytes that a key or a tally has in a row.
pub const WIDEST: usize = 16;

// The width of a kind whose values have so many bytes: all past the widest count as one more.
pub fn width_of(size: usize) -> usize
    ensures { result ≡ width_of size }
{
    size.min(WIDEST + 1)
}

// Refuses a size past the widest, then a row that is shorter than the size.
pub fn fits(size: usize, row: &[u8]) -> Result<(), Refusal>
    ensures answer { result ≡ checked size row.now (Ok tt) }
    ensures narrow { OnOk result (size ≤ 16) }
    ensures room { OnOk result (size ≤ length row.now) }
{
    if size > WIDEST {
        return Err(Refusal::TooWide);
    }
    if row.len() < size {
        return Err(Refusal::TooShort);
    }
    Ok(())
}
