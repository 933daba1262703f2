// The head of a queue, and the mode in which it waits.
ghost use Rattle.std.specs.Prelude.{◌≡◌, List, ◌∷◌, Some};
ghost use Rattle.rules.specs.Queues.{head_of};
ghost use Rattle.rules.specs.Sound.{Sound};
ghost use Rattle.rules.specs.States.{Waiter};
ghost use Rattle.cells.specs.Rosters.{mode_at};
ghost use Rattle.board.specs.Cells.{waits_of};
ghost use Rattle.board.specs.Of.{board_state};

use super::held::held_at;
use board::Board;
use keys::Key;
use requests::Station;
use rules::Mode;
use tallies::Tally;

// The request at the head of a place's queue: the lowest of those that wait there.
pub fn head<K: Key, T: Tally<K>>(board: &Board<'_, K, T>, place: u16) -> Option<u16>
    ensures { Sound (board_state K.Key T.Tally board.now) → result ≡ head_of ((board_state K.Key T.Tally board.now).queue place) }
{
    Station::all()
        .iter()
        .filter_map(|station| held_at(board, *station, place))
        .min()
}

// The mode in which a request waits at a place; none where it does not wait there.
pub fn mode_at<K: Key, T: Tally<K>>(
    board: &Board<'_, K, T>,
    number: u16,
    place: u16,
) -> Option<Mode>
    ensures answer { result ≡ mode_at (waits_of board.now number) place }
    ensures head { (e : Waiter) (q : List Waiter) → (board_state K.Key T.Tally board.now).queue place ≡ e ∷ q → e.number ≡ number → result ≡ Some e.mode }
{
    board.waits(number).at(place)
}
