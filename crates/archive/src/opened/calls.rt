// Opening a file.
ghost use Rattle.std.specs.Prelude.{◌≡◌, List, Some, None, MatchResult};
ghost use Rattle.requests.specs.declared.row.Row.{Row};
ghost use Rattle.archive.specs.Checks.{fault_of};
ghost use Rattle.archive.specs.Theorems.{FileOf, WrittenIsRead, ReadIsWritten};
ghost use Rattle.archive.specs.Opened.{Opened};

use super::super::checking::check_file;
use super::super::fault::Fault;
use super::Archive;
use std::marker::PhantomData;
use stored::{StoredKey, StoredTally};

impl<'a, K: StoredKey, T: StoredTally<K>> Archive<'a, K, T> {
    // The archive of these bytes as a file of keys of the kind K and tallies of the kind T, or its first fault.
    // It is accepted exactly if the bytes are the file of some rows. What was written is read back, and what is read is written again.
    pub fn open(bytes: &'a [u8]) -> Result<Archive<'a, K, T>, Fault>
        ensures first { MatchResult result (λ a. fault_of K.StoredKey.form T.StoredTally.form bytes.now ≡ None) (λ f. fault_of K.StoredKey.form T.StoredTally.form bytes.now ≡ Some f) }
        ensures accepted { MatchResult result (λ a. (a.bytes.now ≡ bytes.now) × ((rows : List (Row K T)) × Opened K.StoredKey.form T.StoredTally.form a rows)) (λ f. (rows : List (Row K T)) → FileOf K.StoredKey.form T.StoredTally.form bytes.now rows → ⊥) }
        ensures written { WrittenIsRead K.StoredKey.form T.StoredTally.form }
        ensures read { ReadIsWritten K.StoredKey.form T.StoredTally.form }
    {
        let layout = check_file::<K, T>(bytes)?;
        Ok(Archive {
            bytes,
            count: layout.rows(),
            kinds: PhantomData,
        })
    }

    // How many rows the file has.
    pub fn count(&self) -> usize
        ensures rows { result ≡ self.now.count }
        ensures opened { fault_of K.StoredKey.form T.StoredTally.form self.now.bytes.now ≡ None → (rows : List (Row K T)) × Opened K.StoredKey.form T.StoredTally.form self.now rows }
    {
        self.count
    }
}
