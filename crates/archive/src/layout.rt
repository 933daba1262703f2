// Where the parts of a file lie: of kinds that an archive holds, and of as many rows as it may have.
ghost use Rattle.std.specs.Prelude.{◌≡◌, ◌≤◌, MatchResult, Some, None};
ghost use Rattle.archive.specs.Format.{request_length, answer_length, answers_start, file_length, header_fields};
ghost use Rattle.archive.specs.Layouts.{layout_refused};

use keys::Refusal;
use std::marker::PhantomData;
use stored::{StoredKey, StoredTally, WIDEST};

pub const EDITION: u32 = 1;

pub const HEADER_LENGTH: usize = 36;

pub const MOST_ROWS: usize = 1024;

#[derive(PartialEq, Eq, Debug, Drop)]
pub struct Layout<K: StoredKey, T: StoredTally<K>> {
    rows: usize,
    kinds: PhantomData<(K, T)>,
    ghost few: { rows ≤ 1024 },
    ghost key_fits: { K.StoredKey.form.size ≤ 16 },
    ghost tally_fits: { T.StoredTally.form.size ≤ 16 },
}

impl<K: StoredKey, T: StoredTally<K>> Layout<K, T> {
    // The layout of a file of so many rows, or what its header would be refused for.
    pub fn new(rows: usize) -> Result<Layout<K, T>, Refusal>
        ensures { MatchResult result (λ l. (layout_refused rows K.StoredKey.form.size T.StoredTally.form.size ≡ None) × (l.rows ≡ rows)) (λ e. layout_refused rows K.StoredKey.form.size T.StoredTally.form.size ≡ Some e) }
    {
        if K::width() > WIDEST || T::width() > WIDEST {
            return Err(Refusal::TooWide);
        }
        if rows > MOST_ROWS {
            return Err(Refusal::HeaderField);
        }
        Ok(Layout {
            rows,
            kinds: PhantomData,
        })
    }

    pub fn rows(&self) -> usize
        ensures { result ≡ self.now.rows }
    {
        self.rows
    }

    pub fn request_length(&self) -> usize
        ensures { result ≡ request_length K.StoredKey.form.size }
    {
        4 + 2 * K::width()
    }

    pub fn answer_length(&self) -> usize
        ensures { result ≡ answer_length T.StoredTally.form.size }
    {
        4 + T::width()
    }

    pub fn answers_start(&self) -> usize
        ensures { result ≡ answers_start self.now.rows K.StoredKey.form.size }
    {
        HEADER_LENGTH + self.rows * self.request_length()
    }

    // Where the file ends.
    pub fn end(&self) -> usize
        ensures { result ≡ file_length self.now.rows K.StoredKey.form.size T.StoredTally.form.size }
    {
        HEADER_LENGTH + self.rows * (self.request_length() + self.answer_length())
    }

    // The nine fields of the header.
    pub fn header_fields(&self) -> [u32; 9]
        ensures { result ≡ header_fields self.now.rows K.StoredKey.form.size T.StoredTally.form.size }
    {
        let (key, tally) = (K::width() as u32, T::width() as u32);
        [
            EDITION,
            self.rows as u32,
            key,
            tally,
            self.request_length() as u32,
            self.answer_length() as u32,
            HEADER_LENGTH as u32,
            self.answers_start() as u32,
            self.end() as u32,
        ]
    }
}
