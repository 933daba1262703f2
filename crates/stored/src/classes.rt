// Counts by class in eight bytes.
ghost use Rattle.stored.specs.NumberBytes.{classes_form};
ghost use Rattle.stored.specs.NumberBytesLemmas.{classes_reread, classes_rewritten};
ghost use Rattle.std.proofs.Common.{rules};

use super::tally::StoredTally;
use keys::{Class, Refusal, Route};
use tallies::Classes;

impl StoredTally<Route> for Classes {
    ghost form = { classes_form };

    ghost long = { Prim.search rules };

    ghost reread = { λ t. classes_reread t };

    ghost rewritten = { λ bytes e h. classes_rewritten bytes e h };

    fn width() -> usize {
        8
    }

    fn put(self, row: &mut [u8]) -> Result<usize, Refusal> {
        let front = row.first_chunk_mut::<8>().ok_or(Refusal::TooShort)?;
        front[0..2].copy_from_slice(&self.count(Class::M).to_be_bytes());
        front[2..4].copy_from_slice(&self.count(Class::W).to_be_bytes());
        front[4..6].copy_from_slice(&self.count(Class::C).to_be_bytes());
        front[6..8].copy_from_slice(&self.count(Class::S).to_be_bytes());
        Ok(8)
    }

    fn get(row: &[u8]) -> Result<Classes, Refusal> {
        let front = row.first_chunk::<8>().ok_or(Refusal::TooShort)?;
        let [a, b, c, d, e, f, g, h] = *front;
        Ok(Classes::new(
            u16::from_be_bytes([a, b]),
            u16::from_be_bytes([c, d]),
            u16::from_be_bytes([e, f]),
            u16::from_be_bytes([g, h]),
        ))
    }
}
