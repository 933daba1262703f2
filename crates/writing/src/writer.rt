// Writing an archive.
ghost use Rattle.std.specs.Prelude.{◌≡◌, false, List, is_ok};
ghost use Rattle.requests.specs.declared.row.Row.{Row};
ghost use Rattle.writing.specs.Written.{write_answer, write_after};

use super::header::put_header;
use super::layers::put_all;
use super::row_bytes::{AnswerPart, RequestPart};
use super::source::Rows;
use archive::{HEADER_LENGTH, Layout};
use keys::Refusal;
use stored::{StoredKey, StoredTally};

// Writes the file of the source's rows to the front of the bytes, and answers its length.
pub fn write<K: StoredKey, T: StoredTally<K>, S: Rows<K, T>>(
    source: &S,
    buffer: &mut [u8],
) -> Result<usize, Refusal>
    ensures answer { (rows : List (Row K T)) → S.Rows.has source.now rows → result ≡ write_answer K.StoredKey.form T.StoredTally.form rows buffer.old }
    ensures after { (rows : List (Row K T)) → S.Rows.has source.now rows → buffer.new ≡ write_after K.StoredKey.form T.StoredTally.form rows buffer.old }
    ensures kept { is_ok result ≡ false → buffer.new ≡ buffer.old }
{
    // Before the source is asked, whose count may take long: a kind that is too wide is refused whatever it has.
    Layout::<K, T>::new(0)?;
    let layout = Layout::<K, T>::new(source.count())?;
    let answers = layout.answers_start();
    let end = layout.end();
    if buffer.len() < end {
        return Err(Refusal::TooShort);
    }
    put_header(&layout, buffer);
    put_all::<K, T, S, RequestPart>(&layout, source, &mut buffer[HEADER_LENGTH..answers]);
    put_all::<K, T, S, AnswerPart>(&layout, source, &mut buffer[answers..end]);
    Ok(end)
}
