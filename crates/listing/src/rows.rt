// Rows as lines, and the listing of an accepted archive.
ghost use Rattle.std.specs.Prelude.{◌≡◌, List, IfOk, string_bytes};
ghost use Rattle.requests.specs.declared.row.Row.{Row};
ghost use Rattle.archive.specs.Opened.{Opened};
ghost use Rattle.listing.specs.RowTexts.{request_text, answer_text, row_line, listing_text};

use archive::Archive;
use printing::{PrintedKey, PrintedTally};
use requests::{Answer, Request, Row};
use std::alloc::{AllocError, Global};

// Kept as functions: these are a listing's words for requests and answers, and a Display would make them everyone's.
fn request_text<K: PrintedKey>(heap: Global, request: Request<K>) -> Result<String, AllocError>
    ensures { IfOk result (λ s. string_bytes s ≡ request_text K.PrintedKey.text request) }
{
    match request {
        Request::Enter(key) => format!(in heap; "enter {key}"),
        Request::Withdraw(key) => format!(in heap; "withdraw {key}"),
        Request::LookUp(key) => format!(in heap; "lookup {key}"),
        Request::Count(first, second) => format!(in heap; "count {first} {second}"),
    }
}

fn answer_text<K: PrintedKey, T: PrintedTally<K>>(
    heap: Global,
    answer: Option<Answer<T>>,
) -> Result<String, AllocError>
    ensures { IfOk result (λ s. string_bytes s ≡ answer_text T.PrintedTally.text answer) }
{
    match answer {
        None => String::from_str(heap, "unfinished"),
        Some(Answer::Changed) => String::from_str(heap, "answer 1"),
        Some(Answer::Unchanged) => String::from_str(heap, "answer 2"),
        Some(Answer::Present) => String::from_str(heap, "answer 3"),
        Some(Answer::Absent) => String::from_str(heap, "answer 4"),
        Some(Answer::Counted(tally)) => format!(in heap; "answer 5 tally {tally}"),
    }
}

fn row_line<K: PrintedKey, T: PrintedTally<K>>(
    heap: Global,
    number: usize,
    row: &Row<K, T>,
) -> Result<String, AllocError>
    ensures { IfOk result (λ s. string_bytes s ≡ row_line K.PrintedKey.text T.PrintedTally.text number row.now) }
{
    let station = row.station().number();
    let asked = request_text(heap, row.request())?;
    let answered = answer_text::<K, T>(heap, row.answer())?;
    format!(in heap; "row {number} station {station} {asked} {answered}\n")
}

// All rows of an accepted archive, one to a line, and their number.
pub fn list_rows<K: PrintedKey, T: PrintedTally<K>>(
    heap: Global,
    archive: &Archive<K, T>,
) -> Result<String, AllocError>
    ensures { (rows : List (Row K T)) → Opened K.StoredKey.form T.StoredTally.form archive.now rows → IfOk result (λ s. string_bytes s ≡ listing_text K.PrintedKey.text T.PrintedTally.text rows) }
{
    let mut written = String::new(heap);
    let count = archive.count();
    // Kept: rows are handed out by number, from 1, and each line tells its number.
    for i in 0..count {
        // Kept: that an archive gives each of its rows is no fact of its type, so a row that is refused has no line.
        if let Ok(row) = archive.read(i + 1) {
            let line = row_line(heap, i + 1, &row)?;
            written.push_str(line.as_str())?;
        }
    }
    let last = format!(in heap; "rows {count}\n")?;
    written.push_str(last.as_str())?;
    Ok(written)
}
