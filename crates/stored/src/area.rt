// An area's number in two bytes in front of a stored key of any kind.
ghost use Rattle.stored.specs.AreaBytes.{area_form};
ghost use Rattle.stored.specs.AreaBytesLemmas.{area_rewritten};
ghost use Rattle.std.proofs.Common.{rules};

use super::key::StoredKey;
use super::width::{fits, width_of};
use keys::{Area, Refusal};

impl<K: StoredKey> StoredKey for Area<K> {
    ghost form = { area_form K.StoredKey.form };

    ghost wide = { Prim.search rules };

    ghost long = { Prim.search rules };

    ghost reread = { Prim.search rules };

    ghost rewritten = { λ bytes a h. area_rewritten K.StoredKey.form K.StoredKey.rewritten bytes a h };

    fn width() -> usize {
        width_of(2 + K::width())
    }

    fn put(self, row: &mut [u8]) -> Result<usize, Refusal> {
        let width = 2 + K::width();
        fits(width, row)?;
        self.key.put(&mut row[2..])?;
        row[0..2].copy_from_slice(&self.number.to_be_bytes());
        Ok(width)
    }

    fn get(row: &[u8]) -> Result<Area<K>, Refusal> {
        fits(2 + K::width(), row)?;
        let number = u16::from_be_bytes([row[0], row[1]]);
        let key = K::get(&row[2..])?;
        Ok(Area { number, key })
    }
}
