// Writing one part of every row: all request rows, or all answer rows.
ghost use Rattle.std.specs.Prelude.{◌≡◌, ◌*◌, List, length, Ok, Err};
ghost use Rattle.std.specs.List.{flat_map};
ghost use Rattle.requests.specs.declared.row.Row.{Row};

use super::part::Part;
use super::source::Rows;
use archive::Layout;
use keys::Refusal;
use requests::Row;
use stored::{StoredKey, StoredTally};

// Writes the part of a row that is given.
fn put_given<K: StoredKey, T: StoredTally<K>, P: Part<K, T>>(
    layout: &Layout<K, T>,
    row: Result<Row<K, T>, Refusal>,
    part: &mut [u8],
)
    requires { length part.old ≡ P.size }
    ensures written { (w : Row K T) → row ≡ Ok w → part.new ≡ P.bytes w }
    ensures kept { (e : Refusal) → row ≡ Err e → part.new ≡ part.old }
{
    if let Ok(row) = row {
        P::put(layout, &row, part);
    }
}

// Writes the part of every row, one after the other.
pub fn put_all<K: StoredKey, T: StoredTally<K>, S: Rows<K, T>, P: Part<K, T>>(
    layout: &Layout<K, T>,
    source: &S,
    parts: &mut [u8],
)
    requires { length parts.old ≡ layout.now.rows * P.size }
    ensures { (rows : List (Row K T)) → S.has source.now rows → layout.now.rows ≡ length rows → parts.new ≡ flat_map P.bytes rows }
{
    let size = P::length(layout);
    // Kept: of what is written through `chunks_exact_mut` a proof knows nothing after the loop.
    for i in 0..layout.rows() {
        put_given::<K, T, P>(
            layout,
            source.row(i + 1),
            &mut parts[i * size..i * size + size],
        );
    }
}
