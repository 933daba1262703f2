// The checks of a whole file.
ghost use Rattle.std.specs.Prelude.{◌≡◌, MatchResult, Some, None};
ghost use Rattle.archive.specs.Checks.{rows_told, fault_of};

use super::answer_rows::check_answers;
use super::fault::Fault;
use super::header::check_header;
use super::layout::{HEADER_LENGTH, Layout};
use super::request_rows::check_requests;
use stored::{StoredKey, StoredTally};

// How a file lies, or its first fault.
pub fn check_file<K: StoredKey, T: StoredTally<K>>(bytes: &[u8]) -> Result<Layout<K, T>, Fault>
    ensures { MatchResult result (λ l. (fault_of K.StoredKey.form T.StoredTally.form bytes.now ≡ None) × (l.rows ≡ rows_told bytes.now)) (λ f. fault_of K.StoredKey.form T.StoredTally.form bytes.now ≡ Some f) }
{
    let layout = check_header::<K, T>(bytes)?;
    let start = layout.answers_start();
    let requests = &bytes[HEADER_LENGTH..start];
    check_requests(&layout, requests)?;
    check_answers(&layout, requests, &bytes[start..])?;
    Ok(layout)
}
