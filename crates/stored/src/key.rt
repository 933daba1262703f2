// What a kind of key is whose keys stand in rows of bytes: a key of the kind has one string of bytes and no other.
ghost use Rattle.std.specs.Prelude.{◌≡◌, ℕ, ◌≤◌, List, length, Some};
ghost use Rattle.stored.specs.Forms.{KeyForm, width_of, put_answer, put_after, key_got};

use keys::{Key, Refusal};

pub trait StoredKey: Key {
    // How many bytes a key of the kind has, which they are, and which key bytes are.
    ghost form: { KeyForm Self };

    // From 1 to 16; a kind whose keys have more bytes has the width 17.
    fn width() -> usize
        ensures { result ≡ width_of form.size };

    // Writes the key to the front of the row, and answers the width.
    fn put(self, row: &mut [u8]) -> Result<usize, Refusal>
        ensures answer { result ≡ put_answer form.size row.old }
        ensures after { row.new ≡ put_after form.size (form.written self) row.old };

    // The key at the front of the row.
    fn get(row: &[u8]) -> Result<Self, Refusal>
        ensures { result ≡ key_got form row.now };

    ghost wide: { 1 ≤ form.size };

    ghost long: { (k : Self) → length (form.written k) ≡ form.size };

    // A key that was written is read back.
    ghost reread: { (k : Self) → form.read (form.written k) ≡ Some k };

    // Bytes that read as a key are those that it writes.
    ghost rewritten: { (bytes : List ℕ) (k : Self) → form.read bytes ≡ Some k → form.written k ≡ bytes };
}
