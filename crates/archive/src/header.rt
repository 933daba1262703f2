// The header's checks.
ghost use Rattle.std.specs.Prelude.{◌≡◌, ◌+◌, ◌*◌, ◌≤◌, [], ◌∷◌, length, MatchResult, Some, None};
ghost use Rattle.archive.specs.Format.{file_length};
ghost use Rattle.archive.specs.Checks.{field_at, rows_told, field_check, field_checks, header_checks, first_fault, passed};

use super::fault::Fault;
use super::layout::{EDITION, HEADER_LENGTH, Layout};
use keys::Refusal;
use stored::{StoredKey, StoredTally};

// The header field at an offset.
fn field(bytes: &[u8], offset: usize) -> u32
    requires { offset + 4 ≤ length bytes.now }
    ensures { result ≡ field_at bytes.now offset }
{
    u32::from_be_bytes(bytes[offset..offset + 4].try_into().unwrap())
}

// The fault of a field at an offset that is not that number.
fn check_field(bytes: &[u8], offset: usize, number: u32) -> Result<(), Fault>
    requires { offset + 4 ≤ length bytes.now }
    ensures { result ≡ passed (field_check bytes.now offset number ∷ []) }
{
    if field(bytes, offset) != number {
        return Err(Fault::in_header(Refusal::HeaderField, offset));
    }
    Ok(())
}

// The first fault of the fields from the third on, where these are expected.
fn check_later(bytes: &[u8], expected: &[u32]) -> Result<(), Fault>
    requires { 8 + 4 * length expected.now ≤ length bytes.now }
    ensures { result ≡ passed (field_checks bytes.now 8 expected.now) }
{
    for (i, number) in expected.iter().enumerate() {
        check_field(bytes, 8 + 4 * i, *number)?;
    }
    Ok(())
}

// How the file lies whose header this is, or the header's first fault.
pub fn check_header<K: StoredKey, T: StoredTally<K>>(bytes: &[u8]) -> Result<Layout<K, T>, Fault>
    ensures { MatchResult result (λ l. (first_fault (header_checks K.StoredKey.form.size T.StoredTally.form.size bytes.now) ≡ None) × ((l.rows ≡ rows_told bytes.now) × (length bytes.now ≡ file_length l.rows K.StoredKey.form.size T.StoredTally.form.size))) (λ f. first_fault (header_checks K.StoredKey.form.size T.StoredTally.form.size bytes.now) ≡ Some f) }
{
    Layout::<K, T>::new(0).map_err(|refusal| Fault::in_header(refusal, 0))?;
    if bytes.len() < HEADER_LENGTH {
        return Err(Fault::in_header(Refusal::FileLength, bytes.len()));
    }
    check_field(bytes, 0, EDITION)?;
    let rows = field(bytes, 4) as usize;
    let layout = Layout::<K, T>::new(rows).map_err(|refusal| Fault::in_header(refusal, 4))?;
    check_later(bytes, &layout.header_fields()[2..])?;
    if bytes.len() != layout.end() {
        return Err(Fault::in_header(Refusal::FileLength, bytes.len()));
    }
    Ok(layout)
}
