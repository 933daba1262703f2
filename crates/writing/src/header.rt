// Writing the header.
ghost use Rattle.std.specs.Prelude.{◌≡◌, ◌≤◌, ◌++◌, length, drop};
ghost use Rattle.archive.specs.Format.{header};

use archive::Layout;
use stored::{StoredKey, StoredTally};

// Writes the header to the front.
pub fn put_header<K: StoredKey, T: StoredTally<K>>(layout: &Layout<K, T>, buffer: &mut [u8])
    requires { 36 ≤ length buffer.old }
    ensures { buffer.new ≡ header layout.now.rows K.StoredKey.form.size T.StoredTally.form.size ++ drop 36 buffer.old }
{
    let fields = layout.header_fields();
    for (i, field) in fields.iter().enumerate() {
        // Kept: of what is written through `chunks_exact_mut` a proof knows nothing after the loop.
        buffer[4 * i..4 * i + 4].copy_from_slice(&field.to_be_bytes());
    }
}
