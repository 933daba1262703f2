// Handing out the rows of an accepted file by number, from 1.
ghost use Rattle.std.specs.Prelude.{◌≡◌, ◌≤◌, List, MatchResult};
ghost use Rattle.std.specs.Option.{option_map};
ghost use Rattle.requests.specs.declared.row.Row.{Row};
ghost use Rattle.archive.specs.Opened.{Opened, row_numbered, row_given, row_bytes, parts_bytes, part_of};

use super::super::decoding::row_in;
use super::super::layout::{HEADER_LENGTH, Layout};
use super::{Archive, Parts};
use keys::Refusal;
use requests::Row;
use stored::{StoredKey, StoredTally};

// One of several parts of one length, which lie one after the other from a start on; none where the bytes end before.
// Kept as an option: an archive's type doesn't tell how long its bytes are, since that is reckoned from the kinds' widths.
fn part(bytes: &[u8], start: usize, size: usize, index: usize) -> Option<&[u8]>
    requires { (start ≤ 65536) × ((size ≤ 64) × (index ≤ 1024)) }
    ensures { option_map (λ x. x.now) result ≡ part_of start size index bytes.now }
{
    let from = start + index * size;
    if bytes.len() < from + size {
        return None;
    }
    Some(&bytes[from..from + size])
}

impl<'a, K: StoredKey, T: StoredTally<K>> Archive<'a, K, T> {
    // How the file lies.
    // Kept beside the type: a layout as a field would ask each holder of an archive for the bounds of its kinds.
    fn layout(&self) -> Result<Layout<K, T>, Refusal>
        ensures { MatchResult result (λ l. l.rows ≡ self.now.count) (λ e. (rows : List (Row K T)) → Opened K.StoredKey.form T.StoredTally.form self.now rows → ⊥) }
    {
        Layout::<K, T>::new(self.count).map_err(|_| Refusal::NotGiven)
    }

    // The bytes of a row.
    pub fn row(&self, number: usize) -> Result<Parts<'a>, Refusal>
        ensures { (rows : List (Row K T)) → Opened K.StoredKey.form T.StoredTally.form self.now rows → parts_bytes result ≡ row_given (option_map (row_bytes K.StoredKey.form T.StoredTally.form) (row_numbered rows number)) }
    {
        let bytes = self.bytes;
        let layout = self.layout()?;
        if number < 1 || number > layout.rows() {
            return Err(Refusal::NotGiven);
        }
        let index = number - 1;
        let request = part(bytes, HEADER_LENGTH, layout.request_length(), index).ok_or(
            Refusal::NotGiven,
        )?;
        let answer = part(bytes, layout.answers_start(), layout.answer_length(), index).ok_or(
            Refusal::NotGiven,
        )?;
        Ok(Parts { request, answer })
    }

    // A row.
    pub fn read(&self, number: usize) -> Result<Row<K, T>, Refusal>
        ensures { (rows : List (Row K T)) → Opened K.StoredKey.form T.StoredTally.form self.now rows → result ≡ row_given (row_numbered rows number) }
    {
        let parts = self.row(number)?;
        let layout = self.layout()?;
        row_in::<K, T>(&layout, parts.request, parts.answer).ok_or(Refusal::NotGiven)
    }
}
