// Numbers of keys in four bytes.
ghost use Rattle.stored.specs.NumberBytes.{number_form};
ghost use Rattle.stored.specs.NumberBytesLemmas.{number_reread, number_rewritten};
ghost use Rattle.std.proofs.Common.{rules};

use super::tally::StoredTally;
use keys::{Key, Refusal};
use tallies::Number;

impl<K: Key> StoredTally<K> for Number {
    ghost form = { number_form };

    ghost long = { Prim.search rules };

    ghost reread = { λ t. number_reread t };

    ghost rewritten = { λ bytes e h. number_rewritten bytes e h };

    fn width() -> usize {
        4
    }

    fn put(self, row: &mut [u8]) -> Result<usize, Refusal> {
        let front = row.first_chunk_mut::<4>().ok_or(Refusal::TooShort)?;
        *front = self.value().to_be_bytes();
        Ok(4)
    }

    fn get(row: &[u8]) -> Result<Number, Refusal> {
        let front = row.first_chunk::<4>().ok_or(Refusal::TooShort)?;
        Ok(Number::new(u32::from_be_bytes(*front)))
    }
}
