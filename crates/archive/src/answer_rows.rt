// The checks of answer rows.
ghost use Rattle.std.specs.Prelude.{◌≡◌, ◌+◌, ◌*◌, ◌≤◌, ◌||◌, length, ◌==◌};
ghost use Rattle.octets.specs.Runs.{all_are};
ghost use Rattle.archive.specs.Format.{request_length, answer_length, answers_start};
ghost use Rattle.archive.specs.Checks.{kind_numbered, is_code, answer_checks, answers_checks, passed};

use super::fault::Fault;
use super::layout::Layout;
use super::request_rows::kind_numbered;
use octets::are_all;
use requests::Kind;
use stored::{StoredKey, StoredTally};

// Whether a request of the kind can have that code: 0, while it is unfinished, or one that answers it.
// Kept: a code is a byte that a file holds; whether it is that of an answer is what is asked here.
fn is_code(kind: Option<Kind>, code: u8) -> bool
    ensures { result ≡ is_code kind code }
{
    match kind {
        Some(Kind::Enter | Kind::Withdraw) => code <= 2,
        Some(Kind::LookUp) => code == 0 || code == 3 || code == 4,
        Some(Kind::Count) => code == 0 || code == 5,
        None => false,
    }
}

// Whether the bytes are what stands in a row of that code for a tally.
fn is_tally(code: u8, bytes: &[u8]) -> bool
    ensures { result ≡ (code == 5 || all_are 0 bytes.now) }
{
    code == 5 || are_all(bytes, 0)
}

// The first fault of an answer row to a request of the kind of that number.
fn check_answer(kind: u8, row: &[u8], number: usize, offset: usize) -> Result<(), Fault>
    requires { (4 ≤ length row.now) × (offset ≤ 131072) }
    ensures { result ≡ passed (answer_checks kind number offset row.now) }
{
    let code = row[0];
    if !is_code(kind_numbered(kind), code) {
        return Err(Fault::in_answer(number, offset));
    }
    if !are_all(&row[1..4], 0) {
        return Err(Fault::in_answer(number, offset + 1));
    }
    if !is_tally(code, &row[4..]) {
        return Err(Fault::in_answer(number, offset + 4));
    }
    Ok(())
}

// The first fault of all answer rows.
// Kept beside that of request rows: a loop for both would take the check as a closure, with the bytes of a row in its contract.
pub fn check_answers<K: StoredKey, T: StoredTally<K>>(
    layout: &Layout<K, T>,
    requests: &[u8],
    answers: &[u8],
) -> Result<(), Fault>
    requires asked { length requests.now ≡ layout.now.rows * request_length K.StoredKey.form.size }
    requires answered { length answers.now ≡ layout.now.rows * answer_length T.StoredTally.form.size }
    ensures { result ≡ passed (answers_checks K.StoredKey.form.size T.StoredTally.form.size layout.now.rows 1 (answers_start layout.now.rows K.StoredKey.form.size) requests.now answers.now) }
{
    let start = layout.answers_start();
    let size = layout.answer_length();
    let rows = requests
        .chunks_exact(layout.request_length())
        .zip(answers.chunks_exact(size));
    for (i, (asked, row)) in rows.enumerate() {
        // Kept: the checks are defined over the byte of the request row, whichever it is.
        check_answer(asked[0], row, i + 1, start + i * size)?;
    }
    Ok(())
}
