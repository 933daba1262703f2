// One of the two parts that a row has in a file: its request row or its answer row.
ghost use Rattle.std.specs.Prelude.{◌≡◌, ℕ, List, length};
ghost use Rattle.requests.specs.declared.row.Row.{Row};

use archive::Layout;
use requests::Row;
use stored::{StoredKey, StoredTally};

pub trait Part<K: StoredKey, T: StoredTally<K>> {
    // How many bytes the part has, and which they are.
    ghost size: { ℕ };

    ghost bytes: { Row K T → List ℕ };

    fn length(layout: &Layout<K, T>) -> usize
        ensures { result ≡ size };

    fn put(layout: &Layout<K, T>, row: &Row<K, T>, part: &mut [u8])
        requires { length part.old ≡ size }
        ensures { part.new ≡ bytes row.now };

    ghost long: { (w : Row K T) → length (bytes w) ≡ size };
}
