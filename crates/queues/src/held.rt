// What a station holds: who waits is held by its station, so a queue is known by what the eight hold.
ghost use Rattle.std.specs.Prelude.{◌≡◌};
ghost use Rattle.board.specs.Of.{board_state};
ghost use Rattle.queues.specs.Held.{held_at};

use board::Board;
use keys::Key;
use requests::Station;
use tallies::Tally;

// The request that a station holds, if it waits at a place.
pub(super) fn held_at<K: Key, T: Tally<K>>(
    board: &Board<'_, K, T>,
    station: Station,
    place: u16,
) -> Option<u16>
    ensures { result ≡ held_at (board_state K.Key T.Tally board.now) place station.number }
{
    let number = board.uncollected(station)?;
    board.waits(number).at(place).map(|_| number)
}
