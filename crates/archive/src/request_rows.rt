// The checks of request rows.
ghost use Rattle.std.specs.Prelude.{◌≡◌, ◌+◌, ◌*◌, ◌≤◌, length, is_some};
ghost use Rattle.requests.specs.Kinds.{kind_number};
ghost use Rattle.archive.specs.Format.{request_length};
ghost use Rattle.archive.specs.Checks.{kind_numbered, is_second, request_checks, requests_checks, passed};

use super::fault::Fault;
use super::layout::{HEADER_LENGTH, Layout};
use octets::are_all;
use requests::{Kind, Station};
use stored::{StoredKey, StoredTally};

// The kind of that number.
pub fn kind_numbered(number: u8) -> Option<Kind>
    ensures { result ≡ kind_numbered number }
{
    Kind::try_from(number).ok()
}

// Whether the bytes are a key.
fn is_key<K: StoredKey>(bytes: &[u8]) -> bool
    requires { (K.StoredKey.form.size ≤ 16) × (length bytes.now ≡ K.StoredKey.form.size) }
    ensures { result ≡ is_some (K.StoredKey.form.read bytes.now) }
{
    K::get(bytes).is_ok()
}

// Whether the bytes are what stands in a row of that kind for a second key.
fn is_second<K: StoredKey>(kind: Kind, bytes: &[u8]) -> bool
    requires { (K.StoredKey.form.size ≤ 16) × (length bytes.now ≡ K.StoredKey.form.size) }
    ensures { result ≡ is_second K.StoredKey.form (kind_number kind) bytes.now }
{
    match kind {
        Kind::Count => is_key::<K>(bytes),
        Kind::Enter | Kind::Withdraw | Kind::LookUp => are_all(bytes, 0),
    }
}

// The first fault of a request row.
fn check_request<K: StoredKey, T: StoredTally<K>>(
    layout: &Layout<K, T>,
    row: &[u8],
    number: usize,
    offset: usize,
) -> Result<(), Fault>
    requires { (length row.now ≡ request_length K.StoredKey.form.size) × (offset ≤ 65536) }
    ensures { result ≡ passed (request_checks K.StoredKey.form number offset row.now) }
{
    let width = K::width();
    let kind = kind_numbered(row[0]).ok_or(Fault::in_request(number, offset))?;
    if Station::new(row[1] as u32).is_err() {
        return Err(Fault::in_request(number, offset + 1));
    }
    if !are_all(&row[2..4], 0) {
        return Err(Fault::in_request(number, offset + 2));
    }
    if !is_key::<K>(&row[4..4 + width]) {
        return Err(Fault::in_request(number, offset + 4));
    }
    if !is_second::<K>(kind, &row[4 + width..]) {
        return Err(Fault::in_request(number, offset + 4 + width));
    }
    Ok(())
}

// The first fault of all request rows.
pub fn check_requests<K: StoredKey, T: StoredTally<K>>(
    layout: &Layout<K, T>,
    requests: &[u8],
) -> Result<(), Fault>
    requires { length requests.now ≡ layout.now.rows * request_length K.StoredKey.form.size }
    ensures { result ≡ passed (requests_checks K.StoredKey.form layout.now.rows 1 36 requests.now) }
{
    let size = layout.request_length();
    for (i, row) in requests.chunks_exact(size).enumerate() {
        check_request(layout, row, i + 1, HEADER_LENGTH + i * size)?;
    }
    Ok(())
}
