// The two rows of bytes that a row is: its request, and its answer.
ghost use Rattle.std.specs.Prelude.{◌≡◌, ◌*◌, ◌≤◌};
ghost use Rattle.archive.specs.Format.{zeros, key_fields, tally_field, request_row, answer_row, request_length, answer_length};
ghost use Rattle.archive.proofs.RowBytes.{request_row_long, answer_row_long};

use super::part::Part;
use archive::Layout;
use requests::{Answer, Request, Row};
use stored::{StoredKey, StoredTally};

// Writes the key or keys of a request over zeros.
fn put_keys<K: StoredKey>(request: Request<K>, fields: &mut [u8])
    requires { (K.StoredKey.form.size ≤ 16) × (fields.old ≡ zeros (2 * K.StoredKey.form.size)) }
    ensures { fields.new ≡ key_fields K.StoredKey.form request }
{
    match request {
        Request::Enter(key) | Request::Withdraw(key) | Request::LookUp(key) => {
            let _ = key.put(fields);
        }
        Request::Count(first, second) => {
            let _ = first.put(fields);
            let _ = second.put(&mut fields[K::width()..]);
        }
    }
}

// Writes a count's tally over zeros.
fn put_tally<K: StoredKey, T: StoredTally<K>>(answer: Option<Answer<T>>, field: &mut [u8])
    requires { (T.StoredTally.form.size ≤ 16) × (field.old ≡ zeros T.StoredTally.form.size) }
    ensures { field.new ≡ tally_field T.StoredTally.form answer }
{
    if let Some(Answer::Counted(tally)) = answer {
        let _ = tally.put(field);
    }
}

#[derive(Clone, Copy, PartialEq, Eq, Debug)]
pub struct RequestPart;

impl<K: StoredKey, T: StoredTally<K>> Part<K, T> for RequestPart {
    ghost size = { request_length K.StoredKey.form.size };

    ghost bytes = { λ w. request_row K.StoredKey.form w };

    ghost long = { λ w. request_row_long K.StoredKey.form (record { long = K.StoredKey.long; reread = K.StoredKey.reread; rewritten = K.StoredKey.rewritten }) w };

    fn length(layout: &Layout<K, T>) -> usize {
        layout.request_length()
    }

    fn put(layout: &Layout<K, T>, row: &Row<K, T>, part: &mut [u8]) {
        let request = row.request();
        part.fill(0);
        part[0] = u8::from(request.kind());
        part[1] = row.station().number();
        put_keys(request, &mut part[4..]);
    }
}

#[derive(Clone, Copy, PartialEq, Eq, Debug)]
pub struct AnswerPart;

impl<K: StoredKey, T: StoredTally<K>> Part<K, T> for AnswerPart {
    ghost size = { answer_length T.StoredTally.form.size };

    ghost bytes = { λ w. answer_row T.StoredTally.form w };

    ghost long = { λ w. answer_row_long T.StoredTally.form (record { long = T.StoredTally.long; reread = T.StoredTally.reread; rewritten = T.StoredTally.rewritten }) w };

    fn length(layout: &Layout<K, T>) -> usize {
        layout.answer_length()
    }

    fn put(layout: &Layout<K, T>, row: &Row<K, T>, part: &mut [u8]) {
        let answer = row.answer();
        part.fill(0);
        part[0] = answer.map_or(0, |given| given.code());
        put_tally::<K, T>(answer, &mut part[4..]);
    }
}
