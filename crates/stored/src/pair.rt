// Two tallies side by side, the bytes of the first in front.
ghost use Rattle.stored.specs.PairBytes.{pair_form};
ghost use Rattle.std.proofs.Common.{ap₂, ◌∙◌, length-append};
ghost use Rattle.std.specs.Prelude.{◌+◌};
ghost use Rattle.stored.specs.PairBytesLemmas.{pair_reread, pair_rewritten};

use super::tally::StoredTally;
use super::width::{fits, width_of};
use keys::{Key, Refusal};
use tallies::Pair;

impl<K: Key, A: StoredTally<K>, B: StoredTally<K>> StoredTally<K> for Pair<A, B> {
    ghost form = { pair_form A.StoredTally.form B.StoredTally.form };

    ghost long = { λ t. length-append _ _ ∙ ap₂ (λ m n. m + n) (A.StoredTally.long t.first) (B.StoredTally.long t.second) };

    ghost reread = { λ t. pair_reread A.StoredTally.form B.StoredTally.form A.StoredTally.long A.StoredTally.reread B.StoredTally.reread t };

    ghost rewritten = { λ bytes e h. pair_rewritten A.StoredTally.form B.StoredTally.form A.StoredTally.rewritten B.StoredTally.rewritten bytes e h };

    fn width() -> usize {
        width_of(A::width() + B::width())
    }

    fn put(self, row: &mut [u8]) -> Result<usize, Refusal> {
        let front = A::width();
        let width = front + B::width();
        fits(width, row)?;
        self.first.put(row)?;
        self.second.put(&mut row[front..])?;
        Ok(width)
    }

    fn get(row: &[u8]) -> Result<Pair<A, B>, Refusal> {
        let front = A::width();
        fits(front + B::width(), row)?;
        let first = A::get(row)?;
        let second = B::get(&row[front..])?;
        Ok(Pair { first, second })
    }
}
