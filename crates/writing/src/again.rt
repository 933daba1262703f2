// Writing an accepted archive again.
ghost use Rattle.std.specs.Prelude.{◌≡◌, ◌<◌, ◌≤◌, false, List, ◌++◌, length, drop, is_ok, Ok, Err};
ghost use Rattle.keys.specs.declared.refusal.Refusal.TheVariants.{TooShort};
ghost use Rattle.requests.specs.declared.row.Row.{Row};
ghost use Rattle.archive.specs.Opened.{Opened};
ghost use Rattle.writing.specs.Written.{write_answer, write_after};

use super::writer::write;
use archive::Archive;
use keys::Refusal;
use stored::{StoredKey, StoredTally};

// Writes the rows of an accepted archive: that very file, byte for byte, where the buffer has room for it; else it is refused and kept.
pub fn write_again<'a, K: StoredKey, T: StoredTally<K>>(
    archive: &Archive<'a, K, T>,
    buffer: &mut [u8],
) -> Result<usize, Refusal>
    ensures told { (rows : List (Row K T)) → Opened K.StoredKey.form T.StoredTally.form archive.now rows → result ≡ write_answer K.StoredKey.form T.StoredTally.form rows buffer.old }
    ensures left { (rows : List (Row K T)) → Opened K.StoredKey.form T.StoredTally.form archive.now rows → buffer.new ≡ write_after K.StoredKey.form T.StoredTally.form rows buffer.old }
    ensures kept { is_ok result ≡ false → buffer.new ≡ buffer.old }
    ensures answer { (rows : List (Row K T)) → Opened K.StoredKey.form T.StoredTally.form archive.now rows → length archive.now.bytes.now ≤ length buffer.old → result ≡ Ok (length archive.now.bytes.now) }
    ensures after { (rows : List (Row K T)) → Opened K.StoredKey.form T.StoredTally.form archive.now rows → length archive.now.bytes.now ≤ length buffer.old → buffer.new ≡ archive.now.bytes.now ++ drop (length archive.now.bytes.now) buffer.old }
    ensures short { (rows : List (Row K T)) → Opened K.StoredKey.form T.StoredTally.form archive.now rows → length buffer.old < length archive.now.bytes.now → result ≡ Err TooShort }
{
    write::<K, T, Archive<'a, K, T>>(&*archive, buffer)
}
