// The rows of an accepted archive are a source of rows.
ghost use Rattle.archive.specs.Opened.{Opened};

use super::source::Rows;
use archive::Archive;
use keys::Refusal;
use requests::Row;
use stored::{StoredKey, StoredTally};

impl<'a, K: StoredKey, T: StoredTally<K>> Rows<K, T> for Archive<'a, K, T> {
    ghost has = { λ a rows. Opened K.StoredKey.form T.StoredTally.form a rows };

    fn count(&self) -> usize {
        self.count()
    }

    fn row(&self, number: usize) -> Result<Row<K, T>, Refusal> {
        self.read(number)
    }
}
