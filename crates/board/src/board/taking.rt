// A request more.
ghost use Rattle.std.specs.Prelude.{◌≡◌, suc, if◌then◌else◌, nat_le, slice_set};
ghost use Rattle.rules.specs.Queues.{given};
ghost use Rattle.board.specs.Of.{Turns};
ghost use Rattle.board.specs.Taken.{fresh_cell, taken};
ghost use Rattle.board.specs.Written.{Rewritten};

use super::Board;
use super::desks::desk_of;
use cells::{Cell, Waits};
use keys::Key;
use requests::{Request, Station};
use tallies::Tally;

// The cell of a request just submitted.
fn fresh<K: Key, T: Tally<K>>(station: Station, request: Request<K>) -> Cell<K::Fields, T>
    ensures { result ≡ fresh_cell K.Key T.Tally station.number request }
{
    let kind = request.kind();
    let (first, second) = match request {
        Request::Enter(key) | Request::Withdraw(key) | Request::LookUp(key) => (key, key),
        Request::Count(lo, hi) => (lo, hi),
    };
    Cell {
        station: station.number(),
        kind,
        second: second.fields(),
        waits: Waits::Between(0),
        ..Cell::blank(first.fields(), T::zero())
    }
}

impl<'a, K: Key, T: Tally<K>> Board<'a, K, T> {
    // Takes a request: it gets the next number and joins the gate's queue, and its station holds it.
    // Where all numbers are given nothing is taken.
    pub fn take(&mut self, station: Station, request: Request<K>)
        ensures { Turns K.Key T.Tally self.old self.new (λ s s'. s' ≡ (if nat_le s.capacity (given s) then s else taken s station.number request)) }
    {
        let count = self.count;
        if count >= self.capacity() {
            return;
        }
        self.lay(fresh::<K, T>(station, request));
        self.desks[desk_of(station)].uncollected = Some((count + 1) as u16);
        self.count = count + 1;
    }

    // Writes the cell behind those that hold requests, where there is one.
    fn lay(&mut self, cell: Cell<K::Fields, T>)
        ensures { Rewritten self.old self.new (slice_set self.old.cells.now self.old.count cell) }
    {
        let at = self.count;
        if at < self.cells.len() {
            self.cells[at] = cell;
        }
    }
}
