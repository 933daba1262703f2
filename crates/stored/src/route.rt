// Routes in five bytes.
ghost use Rattle.stored.specs.RouteBytes.{route_form};
ghost use Rattle.stored.specs.RouteBytesLemmas.{route_reread, route_rewritten};
ghost use Rattle.std.proofs.Common.{rules};

use super::key::StoredKey;
use keys::{Class, Refusal, Route};

impl StoredKey for Route {
    ghost form = { route_form };

    ghost wide = { Prim.search rules };

    ghost long = { Prim.search rules };

    ghost reread = { λ k. route_reread k };

    ghost rewritten = { λ bytes k h. route_rewritten bytes k h };

    fn width() -> usize {
        5
    }

    fn put(self, row: &mut [u8]) -> Result<usize, Refusal> {
        let front = row.first_chunk_mut::<5>().ok_or(Refusal::TooShort)?;
        front[0..2].copy_from_slice(&self.entry().to_be_bytes());
        front[2..4].copy_from_slice(&self.exit().to_be_bytes());
        front[4] = u8::from(self.class());
        Ok(5)
    }

    fn get(row: &[u8]) -> Result<Route, Refusal> {
        let &[a, b, c, d, e, ..] = row else {
            return Err(Refusal::TooShort);
        };
        let entry = u16::from_be_bytes([a, b]);
        let exit = u16::from_be_bytes([c, d]);
        Route::new(entry as u32, exit as u32, Class::try_from(e)?)
    }
}
