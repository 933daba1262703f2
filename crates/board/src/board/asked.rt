// What the board knows of each request.
ghost use Rattle.std.specs.Prelude.{◌≡◌};
ghost use Rattle.rules.specs.Queues.{numbered};
ghost use Rattle.board.specs.Of.{board_state};
ghost use Rattle.board.specs.Cells.{waits_of, key_of};

use super::Board;
use cells::Waits;
use keys::Key;
use requests::{Answer, Kind, Request};
use tallies::Tally;

impl<'a, K: Key, T: Tally<K>> Board<'a, K, T> {
    // The request of that number; none where none was given it.
    pub fn request(&self, number: u16) -> Option<Request<K>>
        ensures { result ≡ numbered (board_state K.Key T.Tally self.now).requests number }
    {
        let cell = self.find(number)?;
        let first = K::from_fields(cell.first);
        Some(match cell.kind {
            Kind::Enter => Request::Enter(first),
            Kind::Withdraw => Request::Withdraw(first),
            Kind::LookUp => Request::LookUp(first),
            Kind::Count => Request::Count(first, K::from_fields(cell.second)),
        })
    }

    // The station that submitted a request; 0 where none did.
    // Kept: a number, since a cell's station is one.
    pub fn asker(&self, number: u16) -> u8
        ensures { result ≡ (board_state K.Key T.Tally self.now).asker number }
    {
        self.find(number).map_or(0, |cell| cell.station)
    }

    // Whether the key of a request was present just before it, once that is decided.
    pub fn decision(&self, number: u16) -> Option<bool>
        ensures { result ≡ (board_state K.Key T.Tally self.now).decision number }
    {
        self.find(number)?.decision
    }

    // The answer of a request that is no count, once it is there.
    pub fn outcome(&self, number: u16) -> Option<Answer<T>>
        ensures { result ≡ (board_state K.Key T.Tally self.now).answer number }
    {
        Some(Answer::from(self.find(number)?.outcome?))
    }

    // A count's tally so far.
    pub fn counted(&self, number: u16) -> T
        ensures { result ≡ (board_state K.Key T.Tally self.now).counted number }
    {
        self.find(number).map_or(T::zero(), |cell| cell.counted)
    }

    // Where a request waits.
    pub fn waits(&self, number: u16) -> Waits
        ensures { result ≡ waits_of self.now number }
    {
        self.find(number).map_or(Waits::Nowhere, |cell| cell.waits)
    }

    // The first key of a request, by which slots name it.
    pub fn key(&self, number: u16) -> Option<K>
        ensures { result ≡ key_of K.Key T.Tally self.now number }
    {
        self.find(number).map(|cell| K::from_fields(cell.first))
    }
}
