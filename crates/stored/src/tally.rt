// What a kind of tally is whose tallies stand in rows of bytes: all bytes of the width are one tally of the kind.
ghost use Rattle.std.specs.Prelude.{◌≡◌, ℕ, true, List, length};
ghost use Rattle.stored.specs.Numerals.{all_bytes};
ghost use Rattle.stored.specs.Forms.{TallyForm, width_of, put_answer, put_after, tally_got};

use keys::{Key, Refusal};
use tallies::Tally;

pub trait StoredTally<K: Key>: Tally<K> {
    // How many bytes a tally of the kind has, which they are, and which tally bytes are.
    ghost form: { TallyForm Self };

    // Up to 16; a kind whose tallies have more bytes has the width 17.
    fn width() -> usize
        ensures { result ≡ width_of form.size };

    // Writes the tally to the front of the row, and answers the width.
    fn put(self, row: &mut [u8]) -> Result<usize, Refusal>
        ensures answer { result ≡ put_answer form.size row.old }
        ensures after { row.new ≡ put_after form.size (form.written self) row.old };

    // The tally at the front of the row.
    fn get(row: &[u8]) -> Result<Self, Refusal>
        ensures { result ≡ tally_got form row.now };

    ghost long: { (t : Self) → length (form.written t) ≡ form.size };

    // A tally that was written is read back.
    ghost reread: { (t : Self) → form.read (form.written t) ≡ t };

    // All bytes of the width are those that the tally writes which they are read as.
    ghost rewritten: { (bytes : List ℕ) → length bytes ≡ form.size → all_bytes bytes ≡ true → form.written (form.read bytes) ≡ bytes };
}
