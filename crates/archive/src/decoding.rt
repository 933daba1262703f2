// The row that the bytes of a request row and of an answer row are.
ghost use Rattle.std.specs.Prelude.{◌≡◌, ◌*◌, ◌≤◌, length, Some};
ghost use Rattle.requests.specs.Kinds.{kind_number};
ghost use Rattle.requests.specs.declared.row.Row.{Row};
ghost use Rattle.archive.specs.Format.{request_row, answer_row};
ghost use Rattle.archive.specs.RowsIn.{request_in, answer_in};

use super::layout::Layout;
use super::request_rows::kind_numbered;
use requests::{Answer, Kind, Request, Row, Station};
use stored::{StoredKey, StoredTally};

// The key of these bytes.
// Kept: a key asks for its width alone; a layout passed along for its limit would be a parameter that no code reads.
fn key_in<K: StoredKey>(bytes: &[u8]) -> Option<K>
    requires { (K.StoredKey.form.size ≤ 16) × (length bytes.now ≡ K.StoredKey.form.size) }
    ensures { result ≡ K.StoredKey.form.read bytes.now }
{
    K::get(bytes).ok()
}

// The request of a kind and of key fields.
fn request_in<K: StoredKey>(kind: Kind, bytes: &[u8]) -> Option<Request<K>>
    requires { (K.StoredKey.form.size ≤ 16) × (length bytes.now ≡ 2 * K.StoredKey.form.size) }
    ensures { result ≡ request_in K.StoredKey.form (kind_number kind) bytes.now }
{
    let width = K::width();
    let first = key_in::<K>(&bytes[0..width])?;
    match kind {
        Kind::Enter => Some(Request::Enter(first)),
        Kind::Withdraw => Some(Request::Withdraw(first)),
        Kind::LookUp => Some(Request::LookUp(first)),
        Kind::Count => Some(Request::Count(first, key_in::<K>(&bytes[width..])?)),
    }
}

// The answer of a code and a tally field.
fn answer_in<K: StoredKey, T: StoredTally<K>>(code: u8, bytes: &[u8]) -> Option<Answer<T>>
    requires { (T.StoredTally.form.size ≤ 16) × (length bytes.now ≡ T.StoredTally.form.size) }
    ensures { result ≡ answer_in T.StoredTally.form code bytes.now }
{
    // Kept: code 0 is no answer yet, and a count's code takes its tally from the field beside it.
    match code {
        0 => None,
        1 => Some(Answer::Changed),
        2 => Some(Answer::Unchanged),
        3 => Some(Answer::Present),
        4 => Some(Answer::Absent),
        _ => T::get(bytes).ok().map(|tally| Answer::Counted(tally)),
    }
}

// The row of these bytes; the bytes of a row are that row.
pub fn row_in<K: StoredKey, T: StoredTally<K>>(
    layout: &Layout<K, T>,
    request: &[u8],
    answer: &[u8],
) -> Option<Row<K, T>>
    ensures { (w : Row K T) → request.now ≡ request_row K.StoredKey.form w → answer.now ≡ answer_row T.StoredTally.form w → result ≡ Some w }
{
    if request.len() != layout.request_length() || answer.len() != layout.answer_length() {
        return None;
    }
    let station = Station::new(request[1] as u32).ok()?;
    let asked = request_in::<K>(kind_numbered(request[0])?, &request[4..])?;
    Row::new(station, asked, answer_in::<K, T>(answer[0], &answer[4..]))
}
