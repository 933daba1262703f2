// Where a request waits.
ghost use Rattle.std.specs.Prelude.{◌≡◌};
ghost use Rattle.rules.specs.Queues.{waiting_place};
ghost use Rattle.rules.specs.Sound.{Sound};
ghost use Rattle.board.specs.Of.{board_state};
ghost use Rattle.queues.specs.Waiting.{least_place};

use board::Board;
use cells::Waits;
use keys::Key;
use tallies::Tally;

// The lowest-numbered place where a request waits; none once it is finished.
pub fn waiting_place<K: Key, T: Tally<K>>(board: &Board<'_, K, T>, number: u16) -> Option<u16>
    ensures { Sound (board_state K.Key T.Tally board.now) → result ≡ waiting_place (board_state K.Key T.Tally board.now) number }
{
    least_place(board.waits(number))
}

// The lesser of the places where a request waits.
fn least_place(waits: Waits) -> Option<u16>
    ensures { result ≡ least_place waits }
{
    match waits {
        Waits::Nowhere => None,
        Waits::Between(place) | Waits::From(place) | Waits::Upto(place) => Some(place),
        Waits::Halves(from, upto) => Some(from.min(upto)),
    }
}
